use crate::Address;

/// What a lane answers where it was asked for its next connection.
#[derive(Debug, Drop, PartialEq, Eq)]
pub enum Accepted {
    /// A connection is there; it came to this address of the server.
    Connection(Address),
    /// No connection will come any more.
    Ended,
    /// The lane could not accept. Its faults rose.
    Failed,
}
