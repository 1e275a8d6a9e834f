ghost use Rattle.std.specs.Prelude.{◌≡◌, ◌<◌, ◌++◌, List, ℕ, length, Option, option_map};
ghost use Rattle.cd_outside.specs.declared.given.Given.TheVariants.{Failed};
ghost use Rattle.cd_outside.specs.Counts.{Rises};
ghost use Rattle.cd_outside.specs.Given.{IsGivenOf};

use crate::Given;

/// Where bytes go.
pub trait Sink {
    /// How often it has failed.
    ghost faults: { Self → ℕ };

    /// The bytes that it holds, where it tells them.
    ghost holds: { Self → Option (List ℕ) };

    /// Writes the piece, which may not be empty.
    fn write(&mut self, piece: &[u8]) -> Given
        requires { 0 < length piece.now }
        ensures bytes { (part : List ℕ) × IsGivenOf result part piece.now × (holds self.new ≡ option_map (λ held. held ++ part) (holds self.old)) }
        ensures cause { Rises (faults self.old) (faults self.new) (result ≡ Failed) };
}
