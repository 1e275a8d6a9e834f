/// Why a lane is served no further.
#[derive(Clone, Copy, Debug, PartialEq, Eq)]
pub enum LaneHow {
    /// No connection will come any more.
    Ended,
    /// The lane could not accept.
    AcceptFault,
    /// The host has halted.
    Halted,
}

/// What the serving of a lane came to. Each count stays at 2^64 - 1.
#[derive(Clone, Copy, Debug)]
pub struct LaneEnd {
    pub how: LaneHow,
    /// How many requests were answered in whole.
    pub answered: u64,
    /// How many connections were interrupted for want of memory.
    pub cut: u64,
}
