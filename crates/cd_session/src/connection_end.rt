use crate::cause::Cause;

/// How a connection was served.
#[derive(Clone, Copy, Debug, PartialEq, Eq)]
pub struct ConnectionEnd {
    pub cause: Cause,
    /// How many of its requests were answered. It stays at 2^64 - 1.
    pub answered: u64,
    /// Whether it found the host halted, so that nobody answers any more.
    pub halted: bool,
}
