ghost use Rattle.std.specs.Prelude.{◌≡◌, [], Some, None};

use crate::Told;
use crate::notes::{Accepts, GoesOn, Keeps, Logs, Puts, Reads, Receives};
use cd_outside::{Accepted, Given, Gives, Key, Lane, Past, Received, Taken, given_of};
use cd_text::{List, Text};
use cd_wire::Intake;
use std::alloc::Global;
use std::sync::Wait;

/// A lane that reports what the calls of another have answered. Of a write that failed it reports the bytes that the other lane says
/// were given, and of bytes that were lost as memory ran out that none came. Of the time before a connection came it reports nothing.
pub struct Telling<L> {
    lane: L,
    told: Told<Past>,
}

impl<L: Drop> Drop for Telling<L> {
    fn drop(self) {
        let Self { lane: _, told: _ } = self;
    }
}

impl<L> Telling<L> {
    /// The lane, of which nothing is reported yet.
    pub fn new(alloc: Global, lane: L) -> Telling<L>
        ensures lane { result.lane ≡ lane }
        ensures told { result.told.value ≡ record { accept_faults = 0; last = None; connections = [] } }
    {
        let past = Past {
            accept_faults: 0,
            last: None,
            connections: List::new(alloc),
        };
        Telling {
            lane,
            told: Told::of(&past),
        }
    }

    /// The lane itself.
    pub fn into_lane(self) -> L
        ensures { result ≡ self.lane }
    {
        let Telling { lane, told: _ } = self;
        lane
    }
}

impl<L: Gives> Lane for Telling<L> {
    ghost faults = { λ t. L.faults t.lane };

    ghost busy = { λ t. L.busy t.lane };

    ghost past = { λ t. Some t.told.value };

    ghost since = { λ _. None };

    fn accept(&mut self) -> Accepted {
        let accepted = self.lane.accept();
        self.told = self.told.then::<Accepts, GoesOn>(&Accepts {
            accepted: &accepted,
        });
        accepted
    }

    fn read(&mut self, into: &mut [u8]) -> Taken {
        let taken = self.lane.read(into);
        self.told = self.told.then::<Reads, GoesOn>(&Reads { taken, into });
        taken
    }

    #[tactic(auto, using(crate::proofs::ToldLemmas::tells_receipt))]
    fn receive(&mut self, into: &mut Intake, room: &mut [u8]) -> Received {
        let before = Told::of(into);
        let received = self.lane.receive(into, room);
        self.told = self.told.then::<Receives, GoesOn>(&Receives {
            received,
            before: &before,
            into,
        });
        received
    }

    fn rest(&mut self) {
        self.lane.rest();
    }

    #[tactic(auto, using(crate::proofs::ToldLemmas::tells_part, cd_stdio::proofs::GivenParts::rises_for))]
    fn write(&mut self, piece: &[u8]) -> Given {
        let count = self.lane.give(piece);
        self.told = self.told.then::<Puts, GoesOn>(&Puts {
            part: &piece[..count],
        });
        given_of(count, piece)
    }

    fn log(&mut self, key: &Key, line: &Text) -> Given {
        let given = self.lane.log(key, line);
        self.told = self.told.then::<Logs, GoesOn>(&Logs { given, key, line });
        given
    }

    fn keep<R: Wait>(&mut self, rt: &R, serial: u32, text: &[u8]) -> Given {
        let given = self.lane.keep(rt, serial, text);
        self.told = self.told.then::<Keeps, GoesOn>(&Keeps {
            given,
            serial,
            text,
        });
        given
    }

    fn seen(&mut self, serial: u32) -> Given {
        self.lane.seen(serial)
    }

    fn end(&mut self) {
        self.lane.end();
    }
}
