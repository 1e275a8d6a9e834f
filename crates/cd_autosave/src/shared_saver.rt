ghost use Rattle.std.specs.Prelude.{◌≡◌, ◌≤◌, ◌+◌, ℕ, Some, length, min};
ghost use Rattle.cd_outside.specs.declared.given.Given.TheVariants as given;
ghost use Rattle.cd_outside.specs.Counts.{count_end};
ghost use Rattle.cd_autosave.specs.Saves.{IsSave};

use crate::{Disk, Saver};
use cd_outside::{Given, MAX_KEPT_BYTES};
use std::marker::Brand;
use std::sync::ledger::{Book, Ledger, Share};

/// A run of lanes over one saver, and its ledger of the faults that they meet on the disk.
pub trait SavingRun: Ledger {
    /// How often the disk has failed as the run begins.
    ghost start: { ℕ };
}

impl SavingRun for Brand {
    ghost start = { 0 };
}

/// A saver that lanes share under a lock, and the book of the faults that they met on its disk.
///
/// Each lane has a share of that book. The shares together are no more than the rise of the disk's faults, which `close` says
/// once they have all come together.
pub struct SharedSaver<D: Disk, K: SavingRun> {
    saver: Saver<D>,
    met: Book<K>,
    ghost counted: { min (K.start + met.total) count_end ≤ D.faults saver.slots.disk },
}

impl<D: Disk, K: SavingRun> SharedSaver<D, K> {
    /// A saver whose disk has failed as often as the run says, and an empty book.
    pub fn new(saver: Saver<D>, met: Book<K>) -> SharedSaver<D, K>
        requires start { D.faults saver.slots.disk ≡ K.start }
        requires none { met.total ≡ 0 }
    {
        SharedSaver { saver, met }
    }

    // Saves a text as the saver does, under the number found at opening, or 0, and the serial. Adds a fault to the book and the
    // share where that failed.
    pub(crate) fn save(&mut self, share: &mut Share<K>, serial: u32, text: &[u8]) -> Given
        requires part { share.old.parts ≡ 1 }
        requires short { length text.now ≤ MAX_KEPT_BYTES }
        ensures save { IsSave D.seen D.left_now D.clock D.left_at (record { saved = record { number = self.old.saver.slots.found + serial; text = text.now }; answer = result }) self.old.saver.slots self.new.saver.slots }
        ensures nothing { (held : ℕ) → self.old.saver.slots.held ≡ Some held → self.old.saver.slots.found + serial ≤ held → (result ≡ given.All) × (self.new.saver.slots ≡ self.old.saver.slots) }
        ensures parts { share.new.parts ≡ 1 }
        ensures all { result ≡ given.All → share.new.amount ≡ share.old.amount }
        ensures failed { result ≡ given.Failed → share.new.amount ≡ share.old.amount + 1 }
    {
        let SharedSaver { saver, met } = self;
        match saver.save(serial, text) {
            Given::All => Given::All,
            Given::Failed => {
                met.add(share, 1);
                Given::Failed
            }
        }
    }

    /// The saver, where all shares have come together. What they have met is no more than the rise of the disk's faults.
    pub fn close(self, all: Share<K>) -> Saver<D>
        requires { all.parts ≡ K.parts }
        ensures { min (K.start + all.amount) count_end ≤ D.faults result.slots.disk }
    {
        let SharedSaver { saver, mut met } = self;
        let mut all = all;
        met.audit(&mut all);
        drop(met);
        drop(all);
        saver
    }
}
