//! Lanes over other lanes: what a lane has read before comes through them, and so does that it may rest. Both calls have a body in
//! the trait, so a lane that forgets to hand them on is proved.
ghost use Rattle.std.specs.Prelude.{◌≡◌, None, false, true};

use crate::device::Busy;
use cd_link::Telling;
use cd_outside::{Accepted, Address, Given, Gives, Key, Lane, Received, Taken};
use cd_stdio::{Explains, Messages, Reporting};
use cd_text::Text;
use cd_wire::Intake;
use std::alloc::Global;
use std::io;
use std::io::Stdout;
use std::sync::Wait;

/// A lane that has read before, as one over a reactor has: what came can be had by `receive` alone, and `read` fails.
#[derive(Drop)]
pub struct ReadBefore {
    alloc: Global,
    connected: bool,
    faults: u64,
    rests: u64,
}

impl ReadBefore {
    /// A lane without a connection.
    pub fn new(alloc: Global) -> ReadBefore
        ensures { result.connected ≡ false }
    {
        ReadBefore {
            alloc,
            connected: false,
            faults: 0,
            rests: 0,
        }
    }
}

impl Explains for ReadBefore {
    fn cause(&self) -> Option<io::Error> {
        None
    }
}

impl Lane for ReadBefore {
    ghost faults = { λ lane. lane.faults };

    ghost busy = { λ lane. lane.connected };

    ghost past = { λ _. None };

    ghost since = { λ _. None };

    fn accept(&mut self) -> Accepted {
        match Address::stdio(self.alloc) {
            Ok(address) => {
                self.connected = true;
                Accepted::Connection(address)
            }
            Err(_) => {
                self.faults = self.faults.saturating_add(1);
                Accepted::Failed
            }
        }
    }

    fn read(&mut self, _into: &mut [u8]) -> Taken {
        self.faults = self.faults.saturating_add(1);
        Taken::Failed
    }

    fn receive(&mut self, into: &mut Intake, _room: &mut [u8]) -> Received {
        match into.push(b"GET / HTTP/1.1\r\n") {
            Ok(()) => Received::Some,
            Err(_) => Received::Lacking,
        }
    }

    fn rest(&mut self) {
        self.rests = self.rests.saturating_add(1);
    }

    fn write(&mut self, _piece: &[u8]) -> Given {
        Given::All
    }

    fn log(&mut self, _key: &Key, _line: &Text) -> Given {
        Given::All
    }

    fn keep<R: Wait>(&mut self, _rt: &R, _serial: u32, _text: &[u8]) -> Given {
        Given::All
    }

    fn seen(&mut self, _serial: u32) -> Given {
        Given::All
    }

    fn end(&mut self) {
        self.connected = false;
    }
}

impl Gives for ReadBefore {
    fn give(&mut self, piece: &[u8]) -> usize {
        piece.len()
    }
}

/// Whether the lanes that the program puts around a lane hand both calls on. Where memory runs out that differs.
pub fn a_lane_that_reports_hands_on<R: Wait>(rt: &R, alloc: Global, out: Stdout) -> bool {
    let messages = Messages::new(alloc, Busy::new(0, out));
    let reporting = Reporting::new(rt, alloc, ReadBefore::new(alloc), &messages);
    let mut lane = Telling::new(alloc, reporting);
    let Accepted::Connection(_) = lane.accept() else {
        return false;
    };
    let came = receives(alloc, &mut lane);
    lane.rest();
    lane.end();
    let reporting = lane.into_lane();
    came && reporting.lane.rests == 1
}

// Whether bytes come without a read.
fn receives<L: Lane>(alloc: Global, lane: &mut L) -> bool
    requires { L.busy lane.old ≡ true }
    ensures { L.busy lane.new ≡ true }
{
    let mut room = [0u8; 8];
    let mut intake = Intake::new(alloc);
    lane.receive(&mut intake, &mut room) == Received::Some
}
