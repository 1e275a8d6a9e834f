//! Networks in memory, as rows of data files: the program serves connections that wait for nobody, over several lanes.
//!
//! A row says what comes on which connections, in which pieces, which calls of their streams fail or have nothing yet, and how many
//! bytes a send takes (reading.rt). The lanes of the program have all of them in turn (network.rt): a connection goes to the next free
//! lane once a request has come, and comes back after its answer. What a row wants is, for each connection, that its client was sent all
//! answers in order, or, where it may be cut, the first of them (judging.rt). data/README.md says how a row is written.
//!
//! What is proved here is safety. That a row agrees is said by the run.
#![tactic(auto)]

mod judging;
mod kinds;
mod network;
mod reading;
mod running;

use cd_rows::{Handles, check_files};
use kinds::NetworkKinds;
use std::process::ExitCode;

fn main(rt: HostRuntime) -> ExitCode {
    let kinds = NetworkKinds {
        handles: Handles::of(&rt),
    };
    match check_files(&rt, &kinds) {
        Ok(true) => ExitCode::SUCCESS,
        Ok(false) => ExitCode::from(1),
        Err(_) => ExitCode::from(2),
    }
}
