//! Whole runs of the program, and what becomes of a file of saved configurations, as rows of data files.
//!
//! A row is of one of three kinds (kinds.rt). A conversation says with which words the program is called, with which configuration, what comes on which connections of which lanes,
//! and which calls of the outside fail (conversation.rt, laning.rt). The program is run over forms in memory, and what a row wants
//! is the exit status, the counts, the output, what the fixtures were asked for, and what each connection was sent (ending.rt).
//!
//! A life says what a file holds at first and what is done with it, step by step: texts are saved (saving.rt), or the program is run
//! over it (running.rt), and each step goes on with the file that the one before has left (lives.rt). What it wants is what each step
//! came to, and what the file then holds (file.rt). A row of the third kind goes over the images that a crash in some saves may leave
//! (tearing.rt). All files are disks in memory. data/README.md says how a row is written.
//!
//! What is proved here is safety. That a row agrees is said by the run.
#![tactic(auto)]

mod conversation;
mod ending;
mod faults;
mod file;
mod kinds;
mod laning;
mod lives;
mod meeting;
mod opening;
mod resting;
mod running;
mod saving;
mod tearing;

use cd_rows::{Handles, check_files};
use kinds::RunKinds;
use std::process::ExitCode;

fn main(rt: HostRuntime) -> ExitCode {
    let kinds = RunKinds {
        handles: Handles::of(&rt),
    };
    match check_files(&rt, &kinds) {
        Ok(true) => ExitCode::SUCCESS,
        Ok(false) => ExitCode::from(1),
        Err(_) => ExitCode::from(2),
    }
}
