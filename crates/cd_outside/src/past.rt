use crate::{Accepted, Address, Key};
use cd_text::{List, Octets, Text};

/// A line that a lane gave to a log writer.
#[derive(Debug, Drop, PartialEq, Eq)]
pub struct Logged {
    pub key: Key,
    pub line: Text,
}

/// A configuration that a lane kept.
#[derive(Debug, Drop, PartialEq, Eq)]
pub struct KeepRecord {
    /// How many bytes had been put on the connection when it was kept.
    pub put: u64,
    /// Its number among the configurations of the run.
    pub serial: u32,
    /// Its compact text.
    pub text: Octets,
}

/// What a lane tells of one connection.
#[derive(Debug, Drop)]
pub struct Connection {
    /// Where it came to.
    pub address: Address,
    /// The bytes that were read from it.
    pub taken: Octets,
    /// Whether a read has answered that nothing is left.
    pub ended: bool,
    /// The bytes that were put on it.
    pub put: Octets,
    /// The lines that were logged while it was there.
    pub lines: List<Logged>,
    /// The configurations that were kept while it was there.
    pub keeps: List<KeepRecord>,
}

/// What a lane tells of its past. The last connection is the one that is there, where one is.
#[derive(Debug, Drop)]
pub struct Past {
    /// How many accepts failed; it stays at its end.
    pub accept_faults: u64,
    /// What the last accept answered.
    pub last: Option<Accepted>,
    pub connections: List<Connection>,
}
