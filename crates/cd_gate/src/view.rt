use cd_legal::Signed;
use std::collections::LinkedList;

/// What a pass knows. No value of it is made.
pub struct View<T> {
    /// False for a messenger between two passes, and for a pass that a join has spent.
    pub live: bool,
    pub number: u32,
    pub turn: bool,
    /// It has found room for one request more under the current serial.
    pub checked: bool,
    /// It has made the balance of the coming serial ready.
    pub ready: bool,
    /// The serial that it has superseded and not settled.
    pub unsettled: Option<Unsettled>,
    /// What it has seen of the history.
    pub seen: LinkedList<Signed>,
    /// The entries that it has signed.
    pub mine: LinkedList<Signed>,
    /// The serial of its open ticket.
    pub ticket: Option<u32>,
    /// Its live draft.
    pub draft: Option<u64>,
    /// The serials that it is to retire.
    pub duties: LinkedList<u32>,
    /// Lists that are to be compared with what it has seen: each begins it.
    pub older: LinkedList<LinkedList<Signed>>,
    /// How many numbers were made. Number 0 alone knows this, and the next field.
    pub made: u32,
    /// What the passes knew that were joined into it.
    pub joined: LinkedList<Gone>,
    /// The value that the gate began with. Only a live pass has it.
    pub opening: Option<T>,
}

/// A serial that is superseded and not settled, and how many requests began under it. No value of it is made.
pub struct Unsettled {
    pub serial: u32,
    pub begins: u64,
}

/// What a pass knew when it was joined. No value of it is made.
pub struct Gone {
    pub number: u32,
    pub seen: LinkedList<Signed>,
    pub mine: LinkedList<Signed>,
}
