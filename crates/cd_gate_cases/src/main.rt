//! Two threads that meet in a gate, each with a pass of its own, before the halt of a host and after it.
//!
//! Each pass begins requests in turns of its own, and ends each by one step, which waits for nobody (requests.rt). Half-way it asks for
//! the halt: the pass whose turn comes first halts the host, and settles the serial that the halt supersedes (halting.rt). That serial
//! is due once its last request has ended: the pass that finds it so retires it. Afterwards the passes come together, and the gate is
//! closed (meeting.rt). The board (board.rt) sees no requests. What is printed is the same whatever the order of the steps.
#![tactic(auto)]

mod board;
mod halting;
mod meeting;
mod requests;

use board::Board;
use meeting::meet;
use std::process::ExitCode;

// How many requests each pass begins and ends before it asks for the halt, and as many after it.
const REQUESTS: u32 = 5_000;

fn main(rt: HostRuntime) -> ExitCode {
    let Ok(ended) = meet(&rt, rt.alloc(), REQUESTS) else {
        return ExitCode::from(2);
    };
    let duties = ended.duties;
    let retired = ended.board == Board::Retired;
    match println!(rt; "duties {duties}, retired {retired}") {
        Ok(()) => ExitCode::SUCCESS,
        Err(_) => ExitCode::from(2),
    }
}
