ghost use Rattle.std.specs.Prelude.{◌≡◌, ◌≤◌, ◌+◌, true};
ghost use Rattle.cd_outside.specs.declared.given.Given.TheVariants as given;

use crate::{Disk, SavingRun, SharedSaver};
use cd_outside::{Accepted, Given, Key, Lane, Received, Taken};
use cd_text::Text;
use cd_wire::Intake;
use std::sync::ledger::Share;
use std::sync::{Mutex, Wait};

/// A lane that saves what it keeps, by a saver that it shares with others.
///
/// Its past is that of the lane that it holds, and so is what that tells of the time before. Its faults are those of that lane and the ones that its own saves met.
pub struct SavingLane<'a, L: Lane, D: Disk, K: SavingRun> {
    pub lane: L,
    saver: &'a Mutex<SharedSaver<D, K>>,
    pub share: Share<K>,
    ghost one_part: { share.parts ≡ 1 },
}

impl<'a, L: Lane, D: Disk, K: SavingRun> SavingLane<'a, L, D, K> {
    // Over a lane, with a part of the shares.
    pub(crate) fn new(
        lane: L,
        saver: &'a Mutex<SharedSaver<D, K>>,
        share: Share<K>,
    ) -> SavingLane<'a, L, D, K>
        requires { share.parts ≡ 1 }
        ensures lane { result.lane ≡ lane }
        ensures share { result.share ≡ share }
    {
        SavingLane { lane, saver, share }
    }

    // The lane, and the share.
    pub(crate) fn into_parts(self) -> (L, Share<K>)
        ensures lane { result.0 ≡ self.entry.lane }
        ensures share { result.1 ≡ self.entry.share }
        ensures parts { result.1.parts ≡ 1 }
    {
        let SavingLane {
            lane,
            saver: _,
            share,
        } = self;
        (lane, share)
    }
}

impl<'a, L: Lane, D: Disk, K: SavingRun> Lane for SavingLane<'a, L, D, K> {
    ghost faults = { λ one. L.faults one.lane + one.share.amount };

    ghost busy = { λ one. L.busy one.lane };

    ghost past = { λ one. L.past one.lane };

    ghost since = { λ one. L.since one.lane };

    fn accept(&mut self) -> Accepted {
        self.lane.accept()
    }

    fn read(&mut self, into: &mut [u8]) -> Taken {
        self.lane.read(into)
    }

    fn receive(&mut self, into: &mut Intake, room: &mut [u8]) -> Received {
        self.lane.receive(into, room)
    }

    fn rest(&mut self) {
        self.lane.rest();
    }

    fn write(&mut self, piece: &[u8]) -> Given {
        self.lane.write(piece)
    }

    fn log(&mut self, key: &Key, line: &Text) -> Given {
        self.lane.log(key, line)
    }

    fn keep<R: Wait>(&mut self, rt: &R, serial: u32, text: &[u8]) -> Given {
        let SavingLane { lane, saver, share } = self;
        match saver.lock(rt).save(share, serial, text) {
            Given::Failed => Given::Failed,
            Given::All => lane.keep(rt, serial, text),
        }
    }

    fn seen(&mut self, serial: u32) -> Given {
        self.lane.seen(serial)
    }

    fn end(&mut self) {
        self.lane.end();
    }
}
