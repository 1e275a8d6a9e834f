//! A connection while it is served, whoever answers its requests: what is kept of it, how it is read, what is put on it, and why the
//! serving of it and of its lane ends.
//!
//! A session keeps the bytes that no request has taken, whether the end of the connection was seen, and how many of its requests
//! were answered (session.rt). `read_more` reads the next bytes, and `refuse` answers what is refused: specs/Reading.antt says what
//! they come to. `put` writes bytes, and leaves the connection there (specs/Keeping.antt). specs/Ways.antt has the ways in which a
//! connection ends, and specs/Ends.antt the cause of each, with what is counted for it. What is answered, and what a lane then
//! tells of its connections, is left to the crates above. Only a call of the lane waits.
#![tactic(auto)]

mod cause;
mod connection_end;
mod counting;
mod lane_end;
mod putting;
mod session;

pub use cause::Cause;
pub use connection_end::ConnectionEnd;
pub use counting::Counts;
pub use lane_end::{LaneEnd, LaneHow};
pub use putting::put;
pub use session::{READ_BYTES, Session, read_more, refuse};
