ghost use Rattle.std.specs.Prelude.{◌≡◌, ◌<◌, ◌++◌, List, ℕ, length, None, option_map};
ghost use Rattle.std.specs.Io.KnownBytes.{Appends};
ghost use Rattle.cd_outside.specs.declared.given.Given.TheVariants.{All, Failed};
ghost use Rattle.cd_outside.specs.Counts.{Rises};
ghost use Rattle.cd_outside.specs.Given.{IsGivenOf};

use crate::give;
use cd_outside::{Given, Sink};
use std::io::Write;

/// A sink over a writer of the system, as standard error is.
#[derive(Drop)]
pub struct Console<W> {
    pub writer: W,
    pub faults: u64,
}

impl<W: Write> Console<W> {
    /// A sink over this writer.
    pub fn new(writer: W) -> Console<W>
        ensures { result ≡ record { writer = writer; faults = 0 } }
    {
        Console { writer, faults: 0 }
    }
}

impl<W: Write> Sink for Console<W> {
    ghost faults = { λ console. console.faults };

    ghost holds = { λ _. None };

    fn write(&mut self, piece: &[u8]) -> Given
        requires { 0 < length piece.now }
        ensures bytes { (part : List ℕ) × IsGivenOf result part piece.now × (None ≡ option_map (λ held. held ++ part) None) }
        ensures cause { Rises self.old.faults self.new.faults (result ≡ Failed) }

        // a writer that tells its bytes has all of them
        ensures written { result ≡ All → Appends (W.contents self.old.writer) (W.contents self.new.writer) piece.now }
    {
        match give(&mut self.writer, piece) {
            Given::All => Given::All,
            Given::Failed => {
                self.faults = self.faults.saturating_add(1);
                Given::Failed
            }
        }
    }
}
