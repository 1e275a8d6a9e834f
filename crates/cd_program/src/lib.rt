//! The program, over the traits of the outside: from the words of the command line to the exit status.
//!
//! `caddy_main` (top.rt) is the whole program over whatever source, output, fixtures and lanes it is given, and its contract is
//! what the program promises: for each command a table by status (specs/Top.antt, specs/Storm.antt) of what was seen before and
//! after (specs/Seen.antt). The crate of the program gives it the real ones: standard streams and the file of the
//! configuration. The forms in memory of `cd_outside` are given it to run whole conversations.
//!
//! The words ask for a `Command` (command.rt). The modules in between read and load the configuration (config.rt), by whatever
//! set of modules there is; say that it is valid (validating.rt), or why there is none (declining.rt); or run it over all lanes
//! (starting.rt), by `run_host` of `cd_host`, and say how that went (concluding.rt, output.rt). How requests are served and
//! configurations follow one another is not decided here. `adapt` writes the configuration that a Caddyfile means, by `adapt` of
//! `cd_adapt` (adapting.rt), and needs no modules. `storm N` serves the workload of a number over forms in memory, by
//! `run_host` too (storm.rt).
#![tactic(auto)]

mod adapting;
mod command;
mod concluding;
mod config;
mod declining;
mod ended;
mod initial;
mod laws;
mod output;
mod refusal;
mod starting;
mod status;
mod storm;
mod top;
mod validating;

pub use config::CONFIG_READ_BYTES;
pub use ended::{Ended, unbegun};
pub use initial::Initial;
pub use laws::{
    a_storm_tells_of_each_lane, all_bytes_are_adapted, all_bytes_are_loaded, limits_in_numbers,
};
pub use output::say_line;
pub use starting::run_all;
pub use status::Status;
pub use top::caddy_main;
