//! HTTP's connections over TCP: an event loop that lanes share, listeners, and the log writers of `cd_stdio`.
//!
//! A `Reactor` has the listeners and each connection that no lane has. `TcpFixtures` open and close listening addresses and
//! log writers there, while lanes wait; a `TcpLane` serves one connection at a time. There is no thread that accepts: one of
//! the lanes that wait sleeps in the system's poll, takes the first connection that is ready, and lets the one lead that came last.
//!
//! The loop reads what comes, and keeps it with the connection, in an `Intake`. A lane gets a connection only when a whole request has
//! come, head and body, or when what has come can't become one, or is more than is kept. It is handed over one request at a time, as it
//! was read, and the connection goes back once it is answered and others wait. So idle clients, half heads, half bodies and clients that
//! have their last answer take no lane, and those that send many requests at once take turns. What a lane calls a connection is thus a
//! stretch of it, from a request to the next quiet moment.
//!
//! `TcpPeers` are the way of a lane to upstreams: a connection for each exchange, which the lane waits for itself.
//!
//! The forms tell nothing of content. Proved is that each counts its faults and answers `Failed` only where the count rose,
//! that a read never answers more bytes than there was room for, that a write says how many bytes a stream took that records its own, how
//! long a client may be slow, how much is kept, and that nothing panics. What sockets and files do is tested.
//!
//! limits.rt has the numbers. Reading order: waiting, connection, sockets, events, turns, reactor, held, lane.
#![tactic(auto)]

mod accepting;
mod aged;
mod binding;
mod budgets;
mod clock;
mod connection;
mod dialling;
mod draining;
mod events;
mod explaining;
mod fixtures;
mod held;
mod lane;
mod limits;
mod pacing;
mod peers;
mod reactor;
mod sockets;
mod stream;
mod tokens;
mod tries;
mod turns;
mod waiting;

pub use budgets::is_too_much;
pub use connection::Connection;
pub use fixtures::TcpFixtures;
pub use held::{Held, Parting};
pub use lane::TcpLane;
pub use limits::{
    BUSY_MILLIS, DIAL_SECONDS, FAST_BYTES, GRACE_MILLIS, IDLE_SECONDS, LINGER_SECONDS, MAX_ACCEPTS,
    MAX_DIALS, MAX_DRAIN_READS, MAX_HEAD_ROOM, MAX_KEPT_BYTES, MAX_KEPT_BYTES_OF_ALL,
    MAX_PAUSE_MILLIS, MAX_TAKES, MAX_TRIES, MAX_WAITING, READ_BYTES, SLOW_SECONDS,
    SLOW_SECONDS_WHEN_FULL, TRY_PAUSE_MILLIS, UPSTREAM_SECONDS, WRITE_MILLIS,
    WRITE_MILLIS_WHEN_FULL, WRITE_TURN_MILLIS, limits_are,
};
pub use pacing::{is_over, slow_after};
pub use peers::TcpPeers;
pub use reactor::Reactor;
pub use stream::{Got, Patient, read_once, write_whole};
pub use tokens::Id;
pub use tries::Tries;
pub use waiting::{Waiting, is_due};
