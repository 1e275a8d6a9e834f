//! The three writes of a save. Each is one call on the disk for the bytes and one to sync them.
ghost use Rattle.std.specs.Prelude.{◌≡◌, ◌<◌, ◌≤◌, ◌+◌, true, List, ℕ, length, Some, IfSome};
ghost use Rattle.cd_outside.specs.declared.given.Given.TheVariants as given;
ghost use Rattle.cd_outside.specs.Counts.{Rises};
ghost use Rattle.cd_autosave.specs.declared.slot.Gate.TheVariants as gate;
ghost use Rattle.cd_autosave.specs.Places.{start_of};
ghost use Rattle.cd_autosave.specs.Image.{Saved, rest_of, IsFilled};
ghost use Rattle.cd_autosave.specs.Disk.{Throughout};
ghost use Rattle.cd_autosave.specs.Saving.{IsKept, MidSave, Stays, StaysTold, held_of, held_after};

use crate::slots::Slots;
use crate::writing::write_through;
use crate::{Disk, Gate};
use cd_outside::{Given, MAX_KEPT_BYTES};

impl<D: Disk> Slots<D> {
    // Closes the gate of the next slot, which is 1 or past the end.
    pub fn close(&mut self) -> Given
        requires kept { IsKept D.seen D.left_now self.old }
        requires settled { self.old.settled ≡ true }
        requires gate { self.old.gate ≡ gate.Other → ⊥ }
        ensures kept { IsKept D.seen D.left_now self.new }
        ensures stays { Stays D.seen self.old self.new }
        ensures meanwhile { (saved : Saved) → Throughout D.clock D.left_at self.old.disk self.new.disk (MidSave (D.left_now self.old.disk) (held_of D.seen self.old) saved) }
        ensures closed { result ≡ given.All → (self.new.settled ≡ true) × (self.new.gate ≡ gate.Other) }
        ensures cause { Rises (D.faults self.old.disk) (D.faults self.new.disk) (result ≡ given.Failed) }
    {
        self.settled = false;
        let start = self.next.start();
        match write_through(&mut self.disk, start, &[0]) {
            Given::Failed => Given::Failed,
            Given::All => {
                self.gate = Gate::Other;
                self.settled = true;
                Given::All
            }
        }
    }

    // Writes the number, the length and the text after the gate of the next slot, which is closed.
    pub fn fill(&mut self, number: u64, text: &[u8], rest: &[u8]) -> Given
        requires kept { IsKept D.seen D.left_now self.old }
        requires settled { self.old.settled ≡ true }
        requires gate { self.old.gate ≡ gate.Other }
        requires short { length text.now ≤ MAX_KEPT_BYTES }
        requires rest { rest.now ≡ rest_of (record { number = number; text = text.now }) }
        ensures kept { IsKept D.seen D.left_now self.new }
        ensures stays { Stays D.seen self.old self.new }
        ensures meanwhile { Throughout D.clock D.left_at self.old.disk self.new.disk (MidSave (D.left_now self.old.disk) (held_of D.seen self.old) (record { number = number; text = text.now })) }
        ensures filled { result ≡ given.All → (self.new.settled ≡ true) × ((image : List ℕ) → D.seen self.new.disk ≡ Some image → IsFilled (start_of self.old.next) (record { number = number; text = text.now }) image) }
        ensures cause { Rises (D.faults self.old.disk) (D.faults self.new.disk) (result ≡ given.Failed) }
    {
        self.settled = false;
        let start = self.next.start();
        match write_through(&mut self.disk, start + 1, rest) {
            Given::Failed => Given::Failed,
            Given::All => {
                self.settled = true;
                Given::All
            }
        }
    }

    // Opens the gate of the next slot, which then is the one that is held.
    pub fn open_gate(&mut self, number: u64, text: &[u8]) -> Given
        requires kept { IsKept D.seen D.left_now self.old }
        requires settled { self.old.settled ≡ true }
        requires short { length text.now ≤ MAX_KEPT_BYTES }
        requires filled { (image : List ℕ) → D.seen self.old.disk ≡ Some image → IsFilled (start_of self.old.next) (record { number = number; text = text.now }) image }
        requires newer { IfSome self.old.held (λ held. held < number) }
        ensures kept { IsKept D.seen D.left_now self.new }
        ensures found { self.new.found ≡ self.old.found }
        ensures number { result ≡ given.All → self.new.held ≡ Some number }
        ensures held { (image : List ℕ) → D.seen self.new.disk ≡ Some image → held_of D.seen self.new ≡ held_after result (held_of D.seen self.old) (record { number = number; text = text.now }) }
        ensures told { StaysTold (D.seen self.old.disk) (D.seen self.new.disk) }
        ensures meanwhile { Throughout D.clock D.left_at self.old.disk self.new.disk (MidSave (D.left_now self.old.disk) (held_of D.seen self.old) (record { number = number; text = text.now })) }
        ensures cause { Rises (D.faults self.old.disk) (D.faults self.new.disk) (result ≡ given.Failed) }
    {
        self.settled = false;
        let start = self.next.start();
        match write_through(&mut self.disk, start, &[1]) {
            Given::Failed => Given::Failed,
            Given::All => {
                self.held = Some(number);
                self.next = self.next.other();
                self.gate = self.kept_gate;
                self.kept_gate = Gate::One;
                self.settled = true;
                Given::All
            }
        }
    }
}
