/// Why a connection was interrupted, where it was.
#[derive(Clone, Copy, Debug, PartialEq, Eq)]
pub enum Cause {
    /// It was not.
    Whole,
    /// The lane has failed.
    Failed,
    /// Out of memory.
    Lacking,
}
