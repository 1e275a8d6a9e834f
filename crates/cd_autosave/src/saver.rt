ghost use Rattle.std.specs.Prelude.{◌≡◌, ◌≤◌, ◌<◌, ◌+◌, ℕ, length, Some, IfSome, IfOk, IfErr, MatchResult};
ghost use Rattle.cd_autosave.specs.declared.slot.Slot.TheVariants as slot;
ghost use Rattle.cd_outside.specs.declared.given.Given.TheVariants as given;
ghost use Rattle.cd_outside.specs.Counts.{Rises};
ghost use Rattle.cd_outside.specs.declared.limits.TheConstants.{MAX_KEPT_BYTES};
ghost use Rattle.std.specs.Vec.{vec_capacity};
ghost use Rattle.cd_tree.specs.Tree.{IsSound};
ghost use Rattle.cd_autosave.specs.declared.limits.TheConstants.{MAX_NUMBER};
ghost use Rattle.cd_autosave.specs.Disk.{IsUnchanged, IsDurable};
ghost use Rattle.cd_autosave.specs.Opening.{IsDamaged, IsFound, IsOpened};
ghost use Rattle.cd_autosave.specs.Saving.{IsKept, held_of};
ghost use Rattle.cd_autosave.specs.Saves.{IsSave};

use crate::choosing::{Arranged, arrange};
use crate::found::FoundSlots;
use crate::opening::look_at_both;
use crate::rest::put_rest;
use crate::slots::Slots;
use crate::{Disk, SaveFault};
use cd_outside::{Given, MAX_KEPT_BYTES};
use cd_text::NoMemory;
use cd_tree::Tree;
use std::alloc::Global;

/// Saves configurations in the two slots of a file. A crash at any moment leaves the last one that was saved, or one that was
/// being saved.
pub struct Saver<D: Disk> {
    slots: Slots<D>,
    rest: Vec<u8>,
    ghost kept: { ∥ IsKept D.seen D.left_now slots ∥₁ },
    ghost bound: { slots.found ≤ MAX_NUMBER },
    ghost room: { 12 + MAX_KEPT_BYTES ≤ vec_capacity rest },
}

// Room for what a slot holds after its gate. It is taken here, so that a save takes none, and is used as far as texts are long.
fn with_room(alloc: Global) -> Result<Vec<u8>, NoMemory>
    ensures { IfOk result (λ room. 12 + MAX_KEPT_BYTES ≤ vec_capacity room) }
{
    Ok(Vec::with_capacity(alloc, 12 + MAX_KEPT_BYTES)?)
}

// The saver of a disk of which this was found, and the tree that was saved last.
fn opened<D: Disk>(disk: D, both: FoundSlots, room: Vec<u8>) -> (Saver<D>, Option<Tree>)
    requires durable { IsDurable (D.seen disk) (D.left_now disk) }
    requires first { IfSome (D.seen disk) (λ image. IsFound slot.First image both.first) }
    requires second { IfSome (D.seen disk) (λ image. IsFound slot.Second image both.second) }
    requires room { 12 + MAX_KEPT_BYTES ≤ vec_capacity room }
    ensures disk { result.0.slots.disk ≡ disk }
    ensures sound { IfSome result.1 IsSound }
    ensures opened { IfSome (D.seen disk) (λ image. IsOpened (held_of D.seen result.0.slots) result.0.slots.found result.1 image) }
{
    let Arranged { slots, tree } = arrange(disk, both);
    (Saver::over(slots, room), tree)
}

impl<D: Disk> Saver<D> {
    /// Opens a disk, and gives the configuration that was saved last, where there is one. It begins with a sync, so that what it
    /// gives outlasts a crash. A disk that could not be opened is handed back.
    ///
    /// # Errors
    ///
    /// `Damaged` where a slot is open whose text is longer than `MAX_KEPT_BYTES`, whose number is above `MAX_NUMBER`, or whose
    /// text is no tree; `DiskFault` where a call on the disk failed; `NoMemory` out of memory.
    pub fn open(alloc: Global, disk: D) -> Result<(Saver<D>, Option<Tree>), (D, SaveFault)>
        ensures unchanged { MatchResult result (λ r. IsUnchanged D.seen D.left_now D.clock D.left_at disk r.0.slots.disk) (λ e. IsUnchanged D.seen D.left_now D.clock D.left_at disk e.0) }
        ensures sound { IfOk result (λ r. IfSome r.1 IsSound) }
        ensures durable { IfOk result (λ r. IsDurable (D.seen r.0.slots.disk) (D.left_now r.0.slots.disk)) }
        ensures opened { IfOk result (λ r. IfSome (D.seen disk) (λ image. IsOpened (held_of D.seen r.0.slots) r.0.slots.found r.1 image)) }
        ensures damaged { IfErr result (λ e. e.1 ≡ SaveFault.Damaged → IfSome (D.seen disk) IsDamaged) }
        ensures cause { MatchResult result (λ r. D.faults disk ≤ D.faults r.0.slots.disk) (λ e. Rises (D.faults disk) (D.faults e.0) (e.1 ≡ SaveFault.DiskFault)) }
    {
        let mut disk = disk;
        let Ok(room) = with_room(alloc) else {
            return Err((disk, SaveFault::NoMemory));
        };
        match look_at_both(alloc, &mut disk) {
            Err(fault) => Err((disk, fault)),
            Ok(both) => Ok(opened(disk, both, room)),
        }
    }

    // Over slots of which all this is known, with room for the rest of a slot.
    pub(crate) fn over(slots: Slots<D>, rest: Vec<u8>) -> Saver<D>
        requires kept { IsKept D.seen D.left_now slots }
        requires room { 12 + MAX_KEPT_BYTES ≤ vec_capacity rest }
        ensures { result.slots ≡ slots }
    {
        Saver { slots, rest }
    }

    /// Saves the text of a configuration under a number: the number found when the file was opened, or 0, and the serial. It
    /// writes nothing where a record is held whose number is at least this. It takes no memory. After `Failed` the record that
    /// was held still is, and the next save may succeed.
    ///
    /// The law `a_crash_leaves_what_was_saved` says what follows for many saves.
    pub fn save(&mut self, serial: u32, text: &[u8]) -> Given
        requires short { length text.now ≤ MAX_KEPT_BYTES }
        ensures save { IsSave D.seen D.left_now D.clock D.left_at (record { saved = record { number = self.old.slots.found + serial; text = text.now }; answer = result }) self.old.slots self.new.slots }
        ensures nothing { (held : ℕ) → self.old.slots.held ≡ Some held → self.old.slots.found + serial ≤ held → (result ≡ given.All) × (self.new.slots ≡ self.old.slots) }
        ensures cause { Rises (D.faults self.old.slots.disk) (D.faults self.new.slots.disk) (result ≡ given.Failed) }
    {
        let number = self.slots.found + u64::from(serial);
        put_rest(&mut self.rest, number, text);
        self.slots.save(number, text, self.rest.as_slice())
    }

    /// The disk.
    pub fn close(self) -> D
        ensures { result ≡ self.slots.disk }
    {
        let Saver { slots, rest } = self;
        drop(rest);
        slots.into_disk()
    }
}
