/// How the serving of a request ended.
#[derive(Clone, Copy, Debug, PartialEq, Eq)]
pub enum How {
    /// It was answered. Whether the connection closes then.
    Answered(bool),
    /// Its whole answer was sent, but the lane failed at a line of it.
    Unlogged,
    /// The lane failed before the whole answer was sent.
    Failed,
    /// Out of memory for its answer, of which nothing was sent, or for the configuration under which it began. No change was made
    /// for it.
    NoMemory,
    /// Nobody answers at the address.
    Dropped,
    /// Nobody answers any more, since the host has halted.
    Halted,
    /// It was not begun: as many requests began under the current serial as may.
    Worn,
}
