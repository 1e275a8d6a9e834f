ghost use Rattle.std.specs.Prelude.{◌≡◌};

use crate::slot::{Gate, Slot};

/// The two slots of a file, and what is known of them between two saves.
pub struct Slots<D> {
    pub disk: D,
    /// The number that was found when the file was opened, or 0.
    pub found: u64,
    /// The number of the record that is held. It is in the slot that is not the next one.
    pub held: Option<u64>,
    /// The slot that the next save takes.
    pub next: Slot,
    /// What is at its gate, where `settled`.
    pub gate: Gate,
    /// What is at the gate of the other slot.
    pub kept_gate: Gate,
    /// Whether a crash would leave just what reads give. After a save that failed it might not.
    pub settled: bool,
}

impl<D> Slots<D> {
    // Lets go of what is known.
    pub fn into_disk(self) -> D
        ensures { result ≡ self.disk }
    {
        let Slots {
            disk,
            found: _,
            held: _,
            next: _,
            gate: _,
            kept_gate: _,
            settled: _,
        } = self;
        disk
    }
}
