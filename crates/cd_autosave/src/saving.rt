ghost use Rattle.std.specs.Prelude.{◌≡◌, ◌<◌, ◌≤◌, true, false, List, ℕ, length, Some, IfSome};
ghost use Rattle.cd_outside.specs.declared.given.Given.TheVariants as given;
ghost use Rattle.cd_outside.specs.Counts.{Rises};
ghost use Rattle.cd_autosave.specs.declared.slot.Gate.TheVariants.{Other};
ghost use Rattle.cd_autosave.specs.Image.{Saved, rest_of, recovered, rank};
ghost use Rattle.cd_autosave.specs.Disk.{Throughout};
ghost use Rattle.cd_autosave.specs.Saving.{IsKept, MidSave, Stays, StaysTold, held_of, held_after};

use crate::looking::look_at_gate;
use crate::slots::Slots;
use crate::{Disk, Gate};
use cd_outside::{Given, MAX_KEPT_BYTES};

impl<D: Disk> Slots<D> {
    // Whether a record is held whose number is at least this.
    fn has(&self, number: u64) -> bool
        ensures yes { result ≡ true → (held : ℕ) × (self.now.held ≡ Some held) × (number ≤ held) }
        ensures no { result ≡ false → IfSome self.now.held (λ held. held < number) }
    {
        match self.held {
            Some(held) => number <= held,
            None => false,
        }
    }

    // After a save that failed: syncs, and looks at the gate of the next slot again.
    fn settle(&mut self) -> Given
        requires kept { IsKept D.seen D.left_now self.old }
        ensures kept { IsKept D.seen D.left_now self.new }
        ensures stays { Stays D.seen self.old self.new }
        ensures meanwhile { (saved : Saved) → Throughout D.clock D.left_at self.old.disk self.new.disk (MidSave (D.left_now self.old.disk) (held_of D.seen self.old) saved) }
        ensures settled { result ≡ given.All → self.new.settled ≡ true }
        ensures cause { Rises (D.faults self.old.disk) (D.faults self.new.disk) (result ≡ given.Failed) }
    {
        if self.settled {
            return Given::All;
        }
        let start = self.next.start();
        match look_at_gate(&mut self.disk, start) {
            None => Given::Failed,
            Some(gate) => {
                self.gate = gate;
                self.settled = true;
                Given::All
            }
        }
    }

    // Closes the gate of the next slot, unless it is closed. A torn write over a closed gate could open what is after it.
    fn shut(&mut self) -> Given
        requires kept { IsKept D.seen D.left_now self.old }
        requires settled { self.old.settled ≡ true }
        ensures kept { IsKept D.seen D.left_now self.new }
        ensures stays { Stays D.seen self.old self.new }
        ensures meanwhile { (saved : Saved) → Throughout D.clock D.left_at self.old.disk self.new.disk (MidSave (D.left_now self.old.disk) (held_of D.seen self.old) saved) }
        ensures closed { result ≡ given.All → (self.new.settled ≡ true) × (self.new.gate ≡ Other) }
        ensures cause { Rises (D.faults self.old.disk) (D.faults self.new.disk) (result ≡ given.Failed) }
    {
        match self.gate {
            Gate::Other => Given::All,
            Gate::Missing => self.close(),
            Gate::One => self.close(),
        }
    }

    // Saves a text under a number. What its slot then has after its gate is handed in. It writes nothing where a record is held
    // whose number is at least this.
    pub fn save(&mut self, number: u64, text: &[u8], rest: &[u8]) -> Given
        requires kept { IsKept D.seen D.left_now self.old }
        requires short { length text.now ≤ MAX_KEPT_BYTES }
        requires rest { rest.now ≡ rest_of (record { number = number; text = text.now }) }
        ensures kept { IsKept D.seen D.left_now self.new }
        ensures meanwhile { Throughout D.clock D.left_at self.old.disk self.new.disk (MidSave (D.left_now self.old.disk) (held_of D.seen self.old) (record { number = number; text = text.now })) }
        ensures acknowledged { result ≡ given.All → (image : List ℕ) → D.left_now self.new.disk image → number < rank (recovered image) }
        ensures held { (image : List ℕ) → D.seen self.new.disk ≡ Some image → held_of D.seen self.new ≡ held_after result (held_of D.seen self.old) (record { number = number; text = text.now }) }
        ensures told { StaysTold (D.seen self.old.disk) (D.seen self.new.disk) }
        ensures nothing { (held : ℕ) → self.old.held ≡ Some held → number ≤ held → (result ≡ given.All) × (self.new ≡ self.old) }
        ensures found { self.new.found ≡ self.old.found }
        ensures cause { Rises (D.faults self.old.disk) (D.faults self.new.disk) (result ≡ given.Failed) }
    {
        if self.has(number) {
            return Given::All;
        }
        match self.settle() {
            Given::Failed => return Given::Failed,
            Given::All => {}
        }
        match self.shut() {
            Given::Failed => return Given::Failed,
            Given::All => {}
        }
        match self.fill(number, text, rest) {
            Given::Failed => return Given::Failed,
            Given::All => {}
        }
        self.open_gate(number, text)
    }
}
