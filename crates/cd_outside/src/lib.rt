//! What stands outside the server, and the server's only ways to it.
//!
//! A `Source` gives bytes, a `Sink` takes them, `Fixtures` open and close what a configuration holds (a listening address, a
//! log writer), and a `Lane` gives connections one after another, takes log lines, and keeps configurations; one that `Gives` says
//! how much of a piece was given where a write failed. Each trait counts its faults; a call answers `Failed` only where that count
//! rose in it. Each tells what it gave, holds or has seen, where it can: a form in memory does, a socket does not, and then nothing
//! is claimed of the bytes.
//!
//! The forms in memory play a script and fail at the calls that they are told to fail at, so that whole runs can be tested.
//! Otherwise they fail only where memory runs out, which counts as a fault too. The real forms are in the crates above.
#![tactic(auto)]

mod accepted;
mod address;
mod call;
mod faults;
mod fixture_record;
mod fixtures;
mod given;
mod giving;
mod holder;
mod key;
mod lane;
mod limits;
mod memory_fixtures;
mod memory_lane;
mod memory_sink;
mod memory_source;
mod past;
mod pieces;
mod received;
mod recording;
mod saying;
mod sink;
mod source;
mod taken;

pub use accepted::Accepted;
pub use address::Address;
pub use call::Call;
pub use faults::Faults;
pub use fixture_record::FixtureRecord;
pub use fixtures::{FixtureCall, Fixtures, Opened};
pub use given::Given;
pub use giving::{Gives, given_of};
pub use holder::{Holder, Pair};
pub use key::Key;
pub use lane::Lane;
pub use limits::{MAX_KEPT_BYTES, limits_in_numbers};
pub use memory_fixtures::MemoryFixtures;
pub use memory_lane::MemoryLane;
pub use memory_sink::MemorySink;
pub use memory_source::MemorySource;
pub use past::{Connection, KeepRecord, Logged, Past};
pub use pieces::Pieces;
pub use received::Received;
pub use saying::{USAGE, say, say_usage};
pub use sink::Sink;
pub use source::Source;
pub use taken::Taken;
