//! Exchanges with upstreams over real sockets.
//!
//! exchanging.rt has the scenes. Each says whether all of it came out as it has to. Its name is printed, with `differs` where it did
//! not.
#![tactic(auto)]

mod exchanging;

use cd_tcp::{Reactor, TcpPeers};
use exchanging::{an_upstream_answers, an_upstream_ends, nobody_is_there};
use std::io;
use std::net::{Net, TcpListener, TcpStream};
use std::process::ExitCode;
use std::sync::Wait;
use std::thread::Threads;
use std::time::Clock;

fn main(rt: HostRuntime) -> ExitCode {
    let Ok(reactor) = Reactor::new(&rt, rt.alloc(), rt.stdout(), rt.stderr()) else {
        return ExitCode::from(2);
    };
    crosses(&TcpPeers::new(&rt, rt.alloc(), &reactor));
    match all_scenes(&rt, &reactor) {
        Ok(()) => ExitCode::SUCCESS,
        Err(_) => ExitCode::from(2),
    }
}

// A worker relays in a thread of its own.
fn crosses<P: Send>(_peers: &P) {}

fn all_scenes<
    R: Threads
        + Wait
        + Sync
        + Clock
        + Net<Listener = TcpListener, Stream = TcpStream>
        + Print
        + AllocGlobal,
>(rt: &R, reactor: &Reactor) -> io::Result<()> {
    let answered = an_upstream_answers(rt, reactor)?;
    tell(rt, "an upstream answers", answered)?;
    let ended = an_upstream_ends(rt, reactor)?;
    tell(rt, "an upstream ends", ended)?;
    let refused = nobody_is_there(rt, reactor)?;
    tell(rt, "nobody is there", refused)
}

// Prints the name of a scene.
fn tell(rt: &impl Print, name: &str, holds: bool) -> io::Result<()> {
    if holds {
        println!(rt; "{name}")
    } else {
        println!(rt; "{name}: differs")
    }
}
