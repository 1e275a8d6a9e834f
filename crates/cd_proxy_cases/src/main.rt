//! The cases of a gateway: rows of data files, each a call of a public function and what is wanted of it.
//!
//! The words are the names of the files. A member of a row names its kind (kinds.rt). What makes a row agree, and how one is read,
//! is said in `cd_rows`. The exit status is 0 where every row of every file agrees.
#![tactic(auto)]

mod commands;
mod forwards;
mod kinds;
mod picks;
mod relays;
mod responses;

use cd_rows::{Handles, check_files};
use kinds::Cases;
use std::process::ExitCode;

fn main(rt: HostRuntime) -> ExitCode {
    let cases = Cases {
        handles: Handles::of(&rt),
    };
    match check_files(&rt, &cases) {
        Ok(true) => ExitCode::SUCCESS,
        Ok(false) => ExitCode::from(1),
        Err(_) => ExitCode::from(2),
    }
}
