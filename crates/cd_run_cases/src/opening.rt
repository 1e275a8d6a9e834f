ghost use Rattle.std.specs.Prelude.{◌≡◌};

use crate::meeting::Meeting;
use cd_outside::{Fixtures, Key, MemoryFixtures, Opened};

/// Fixtures in memory, which say when an opening begins and when a key was closed. Where the row says so, one opening waits for
/// lanes, and fails where it waits in vain.
#[derive(Drop)]
pub struct MeetingFixtures {
    pub fixtures: MemoryFixtures,
    /// Others wait there for an opening to begin.
    opening: Meeting,
    /// Others wait there for a key to be closed.
    closing: Meeting,
    /// Where an opening is to wait, until it has.
    waiting: Option<WaitingOpening>,
}

/// The opening that waits.
#[derive(Drop)]
pub struct WaitingOpening {
    /// Its number, from 0.
    pub number: u64,
    pub meeting: Meeting,
}

impl MeetingFixtures {
    /// These fixtures, of which nothing was asked yet.
    pub fn new(
        fixtures: MemoryFixtures,
        opening: Meeting,
        closing: Meeting,
        waiting: Option<WaitingOpening>,
    ) -> MeetingFixtures {
        MeetingFixtures {
            fixtures,
            opening,
            closing,
            waiting,
        }
    }

    // Waits where the opening that has begun is the one that is to. Says whether it has not waited in vain.
    fn meet(&mut self) -> bool
        ensures { self.new.fixtures ≡ self.old.fixtures }
    {
        match &self.waiting {
            Some(waiting) if waiting.number == self.fixtures.faults.calls => {}
            _ => return true,
        }
        match self.waiting.take() {
            Some(waiting) => waiting.meeting.wait(),
            None => true,
        }
    }
}

impl Fixtures for MeetingFixtures {
    ghost faults = { λ meeting. ⟦<MemoryFixtures as Fixtures>⟧.faults meeting.fixtures };

    ghost calls = { λ meeting. ⟦<MemoryFixtures as Fixtures>⟧.calls meeting.fixtures };

    fn open_key(&mut self, key: &Key) -> Opened {
        self.opening.arrive();
        if !self.meet() {
            self.fixtures.faults.rise();
            self.fixtures.recorded.add_refused(key);
            return Opened::Failed;
        }
        self.fixtures.open_key(key)
    }

    fn close_key(&mut self, key: &Key) {
        self.fixtures.close_key(key);
        self.closing.arrive();
    }

    fn shut(&mut self) {
        self.fixtures.shut()
    }
}
