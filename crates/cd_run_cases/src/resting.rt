ghost use Rattle.std.specs.Prelude.{◌≡◌, None, false, is_some};

use crate::meeting::Meeting;
use cd_outside::{Accepted, Faults, Given, Key, Lane, MemoryLane, Taken};
use cd_text::{List, Text};
use std::sync::Wait;

/// A lane in memory that counts how often it may rest. Where the row says so, it waits before its first read and before its second
/// one, and fails to keep configurations. A read that waits in vain fails.
#[derive(Drop)]
pub struct RestingLane {
    pub lane: MemoryLane,
    pub rests: u64,
    /// Which configurations it fails to keep, by their numbers from 0.
    unkept: Faults,
    /// Where it is to wait for all lanes, until it has been asked for a connection.
    coming: Option<Meeting>,
    /// Where it is to wait before its next read.
    waiting: Option<Meeting>,
    /// Where it is to wait before the read after that.
    returning: Option<Meeting>,
    /// Where answers on this lane are waited for.
    answering: Option<Meeting>,
    /// Whether it has waited in vain.
    pub alone: bool,
}

/// Where a lane meets the others.
#[derive(Drop)]
pub struct Places {
    /// It waits there for all lanes, before its first read.
    pub coming: Option<Meeting>,
    /// It waits there for an answer of another lane, before its first read.
    pub waiting: Option<Meeting>,
    /// It waits there before its second read.
    pub returning: Option<Meeting>,
    /// Others wait there for its answers.
    pub answering: Option<Meeting>,
}

impl Places {
    /// It meets nobody.
    pub fn none() -> Places {
        Places {
            coming: None,
            waiting: None,
            returning: None,
            answering: None,
        }
    }
}

impl RestingLane {
    /// This lane, on which no connection is there. It fails to keep the configurations with these numbers, counted from 0.
    pub fn new(lane: MemoryLane, unkept: List<u64>, places: Places) -> RestingLane
        requires { lane.current ≡ None }
        ensures { is_some result.lane.current ≡ false }
    {
        let Places {
            coming,
            waiting,
            returning,
            answering,
        } = places;
        RestingLane {
            lane,
            rests: 0,
            unkept: Faults::new(unkept),
            coming,
            waiting,
            returning,
            answering,
            alone: false,
        }
    }
}

impl Lane for RestingLane {
    ghost faults = { λ resting. ⟦<MemoryLane as Lane>⟧.faults resting.lane };

    ghost busy = { λ resting. ⟦<MemoryLane as Lane>⟧.busy resting.lane };

    ghost past = { λ resting. ⟦<MemoryLane as Lane>⟧.past resting.lane };

    ghost since = { λ _. None };

    fn accept(&mut self) -> Accepted {
        if let Some(meeting) = self.coming.take() {
            meeting.arrive();
            self.waiting = Some(meeting);
        }
        self.lane.accept()
    }

    fn read(&mut self, into: &mut [u8]) -> Taken {
        let waiting = self.waiting.take();
        self.waiting = self.returning.take();
        if let Some(meeting) = waiting {
            if !meeting.wait() {
                self.alone = true;
                self.lane.faults.rise();
                return Taken::Failed;
            }
        }
        self.lane.read(into)
    }

    fn rest(&mut self) {
        self.rests = self.rests.saturating_add(1);
    }

    fn write(&mut self, piece: &[u8]) -> Given {
        let given = self.lane.write(piece);
        if let Some(meeting) = &self.answering {
            meeting.arrive();
        }
        given
    }

    fn log(&mut self, key: &Key, line: &Text) -> Given {
        self.lane.log(key, line)
    }

    fn keep<R: Wait>(&mut self, rt: &R, serial: u32, text: &[u8]) -> Given {
        if self.unkept.fails() {
            self.lane.faults.rise();
            return Given::Failed;
        }
        self.lane.keep(rt, serial, text)
    }

    fn seen(&mut self, serial: u32) -> Given {
        self.lane.seen(serial)
    }

    fn end(&mut self) {
        self.lane.end()
    }
}
