//! Connections that wait for nobody, and lanes that report what happened.
//!
//! A socket reports nothing of its past, so what is promised of a lane that reports says nothing of it. Two kinds of lanes here report,
//! whatever is below them. `Telling` is a lane over any other that says how much of a piece it gave (telling.rt). `LinkLane` is a lane over connections of the type `Link`
//! (link.rt): such a connection receives and sends without waiting, keeps what has come until a lane takes it and what was written until
//! its stream takes it, and its own type promises that no byte is lost, invented or swapped on the way. A `Doorway` gives connections to
//! lanes and takes them back, so that many lanes serve a connection in turn. A connection keeps the serial under which a request has last
//! begun on it, and a lane declines a request that begins under an older one. How slow a client may be is left to the doorway: a
//! connection has no clock. What is reported takes no memory: `Told` is a value that only clauses read (told.rt).
#![tactic(auto)]

mod doorway;
mod laws;
mod link;
mod link_lane;
mod living;
mod memory_stream;
mod notes;
mod stream;
mod stretches;
mod telling;
mod told;
mod unsent;
mod wire;

pub use doorway::{Doorway, Next};
pub use laws::{
    a_connection_begins_without_a_serial, a_connection_keeps_its_bytes,
    a_lane_reports_its_connection, a_lane_reports_what_a_connection_had_seen,
    no_request_begins_under_an_older_serial,
};
pub use link::{Filled, Flushed, Link, MAX_UNSENT_BYTES};
pub use link_lane::LinkLane;
pub use memory_stream::MemoryStream;
pub use stream::{Got, Sent, Stream};
pub use telling::Telling;
pub use told::{Makes, Notes, Told, told_of};
pub use unsent::Unsent;
pub use wire::Wire;
