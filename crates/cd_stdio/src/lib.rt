//! What the program reaches that is not a socket: standard streams, the file of the configuration, and the lines on standard error.
//!
//! `StreamLane` has one connection, over a reader and a writer, and log lines; `Console` is a sink over a writer; `ConfigSource` reads the file
//! of the configuration. Each is generic over std's readers and writers, so a clause speaks of every one of them. Of a reader or a
//! writer that tells its bytes it says which are taken and written: the end is answered only where none is left, and a piece is
//! given only where all of it was written. Of a write that failed it says how many bytes were written at least (`put`, and `Gives` of
//! `cd_outside`). Standard streams and files tell no bytes. That the program hands over the right ones is tested over real ones
//! (tests/loopback).
//!
//! `Writers` has the log writers that lanes share, `LogFile` is one file of them, and names.rt says what their names stand for. A
//! line is written without a lock that another lane needs, unless it goes to the same standard stream.
//!
//! `Messages` has the lines for standard error that wait, and lines.rt what they say; escaping.rt writes control characters in names as
//! escapes. `Announced` is other fixtures, `Reporting` is another lane, and `AfterMessages` another sink: each answers as the one that
//! it has, and leaves messages or writes those that wait. A call that holds up others only leaves them, and `Watched` says whether
//! standard error takes them at once.
#![tactic(auto)]

mod after_messages;
mod announced;
mod config_file;
mod console;
mod escaping;
mod lines;
mod log_file;
mod messages;
mod moving;
mod names;
mod open_writers;
mod reporting;
mod streams;
mod watched;
mod writers;

pub use after_messages::AfterMessages;
pub use announced::{Announced, Explains};
pub use config_file::{ConfigFile, ConfigSource};
pub use console::Console;
pub use lines::{HTTPS_PORT, caused_line, https_port_is, key_line, listening_line};
pub use log_file::LogFile;
pub use messages::{MAX_LINE_BYTES, MAX_LINES, Messages, TakesNow};
pub use moving::{give, put, take, take_or_fail};
pub use names::{Stream, filename_of, stream_of};
pub use open_writers::{Named, OpenWriters};
pub use reporting::Reporting;
pub use streams::StreamLane;
pub use watched::Watched;
pub use writers::{Writer, Writers};
