ghost use Rattle.std.specs.Prelude.{◌≡◌, ◌≤◌, ◌↔◌, IsTrue};
ghost use Rattle.cd_tcp.specs.declared.limits.TheConstants.{MAX_TRIES, TRY_PAUSE_MILLIS};
ghost use Rattle.cd_tcp.specs.Tries.{one_more, twice};

use crate::{MAX_PAUSE_MILLIS, MAX_TRIES, TRY_PAUSE_MILLIS};

/// How many accepts in a row have failed, and how long the next pause is, in milliseconds.
#[derive(Debug, Drop)]
pub struct Tries {
    pub failed: u32,
    pub pause: u64,
}

impl Tries {
    /// None has failed yet.
    pub fn new() -> Tries
        ensures { result ≡ record { failed = 0; pause = TRY_PAUSE_MILLIS } }
    {
        Tries {
            failed: 0,
            pause: TRY_PAUSE_MILLIS,
        }
    }

    /// Counts a failed accept, and says whether as many have failed as are tried. The pause after it is twice the one before.
    pub fn fail(&mut self) -> bool
        ensures counted { self.new ≡ record { failed = one_more self.old.failed; pause = twice self.old.pause } }
        ensures last { IsTrue result ↔ (MAX_TRIES ≤ self.new.failed) }
    {
        self.failed = self.failed.saturating_add(1);
        self.pause = self.pause.saturating_add(self.pause).min(MAX_PAUSE_MILLIS);
        self.failed >= MAX_TRIES
    }
}
