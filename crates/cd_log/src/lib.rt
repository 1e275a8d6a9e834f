//! The settings of logging, and the lines of access logs.
//!
//! `Logs` is what a configuration says of its logs (specs/Logging.antt): each has a writer, and takes the lines of access logs or
//! not. Encoders and levels are checked for their kind alone. The module of a writer has the key that its lines go to (`Writer`).
//!
//! `Logs::lines` gives the lines of an answer, one for each log that takes them (specs/Lines.antt): all have the same text. Its
//! method and its target have visible bytes alone, whatever a request has there, so a line is one line. What was read from a
//! connection has no others, as the law `requests_are_logged_as_they_came` says.
//!
//! Nothing is written here: which servers are logged, and when, is left to the crates above.
#![tactic(auto)]

mod laws;
mod line;
mod log;
mod logs;
mod writer;

pub use laws::requests_are_logged_as_they_came;
pub use log::Log;
pub use logs::Logs;
pub use writer::Writer;
