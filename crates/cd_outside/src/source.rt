ghost use Rattle.std.specs.Prelude.{◌≡◌, ◌<◌, ◌++◌, List, ℕ, length, Option, option_map};
ghost use Rattle.cd_outside.specs.declared.taken.Taken.TheVariants.{Failed};
ghost use Rattle.cd_outside.specs.Counts.{Rises};
ghost use Rattle.cd_outside.specs.Taken.{IsTakenWithin, bytes_of, EndsOnly};

use crate::Taken;

/// Where bytes come from.
pub trait Source {
    /// How often it has failed.
    ghost faults: { Self → ℕ };

    /// The bytes that are left, where it tells them.
    ghost left: { Self → Option (List ℕ) };

    /// Reads the next bytes into the front of `into`, which may not be empty. A source that tells its bytes answers `End`
    /// exactly where none are left and it does not fail.
    fn read(&mut self, into: &mut [u8]) -> Taken
        requires { 0 < length into.old }
        ensures bound { IsTakenWithin result (length into.new) }
        ensures bytes { left self.old ≡ option_map (λ rest. bytes_of result into.new ++ rest) (left self.new) }
        ensures end { EndsOnly result (left self.new) }
        ensures cause { Rises (faults self.old) (faults self.new) (result ≡ Failed) };
}
