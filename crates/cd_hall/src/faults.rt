use crate::duty::Duty;
use cd_outside::Key;

/// Why no request was begun.
#[derive(Clone, Copy, Debug, PartialEq, Eq)]
pub enum BeginFault {
    /// As many began under the serial as may.
    Worn,
    NoMemory,
}

/// The key that could not be opened.
#[derive(Debug, Drop)]
pub struct KeyFailed {
    pub key: Key,
}

/// The host was halted before.
#[derive(Clone, Copy, Debug, PartialEq, Eq)]
pub struct Halted;

/// Out of memory for the configuration under which a request began. The request has ended, and this duty came with its end.
pub struct NoFetch {
    pub duty: Option<Duty>,
}
