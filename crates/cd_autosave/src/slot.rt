ghost use Rattle.std.specs.Prelude.{◌≡◌, ◌≤◌, if◌then◌else◌, ◌==◌};
ghost use Rattle.cd_autosave.specs.declared.slot.Gate.TheVariants.{One, Other};
ghost use Rattle.cd_autosave.specs.Places.{start_of, other};

use crate::limits::SECOND_START;

/// One of the two places of the file that hold a saved configuration.
#[derive(Clone, Copy, Debug, PartialEq, Eq)]
pub enum Slot {
    First,
    Second,
}

impl Slot {
    /// Where its gate is, as a number of bytes from the beginning of the file.
    pub fn start(self) -> u64
        ensures start { result ≡ start_of self }
        ensures bound { result ≤ SECOND_START }
    {
        match self {
            Slot::First => 0,
            Slot::Second => SECOND_START,
        }
    }

    /// The other one.
    pub fn other(self) -> Slot
        ensures { result ≡ other self }
    {
        match self {
            Slot::First => Slot::Second,
            Slot::Second => Slot::First,
        }
    }
}

/// What the file has at the gate of a slot.
#[derive(Clone, Copy, Debug, PartialEq, Eq)]
pub enum Gate {
    /// The file ends before it.
    Missing,
    /// 1, so the slot is open unless the gate is the last byte of the file.
    One,
    /// Any other byte: the slot is closed.
    Other,
}

impl Gate {
    /// What a byte at the gate of a slot says.
    pub fn of_byte(byte: u8) -> Gate
        ensures { result ≡ (if byte == 1 then One else Other) }
    {
        if byte == 1 { Gate::One } else { Gate::Other }
    }
}
