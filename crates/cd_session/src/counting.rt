//! What is counted of the connections of a lane.
ghost use Rattle.std.specs.Prelude.{◌≡◌, ◌+◌, min};
ghost use Rattle.cd_outside.specs.Counts.{count_end};
ghost use Rattle.cd_session.specs.Ends.{cut_by};

use crate::cause::Cause;
use crate::connection_end::ConnectionEnd;
use crate::lane_end::{LaneEnd, LaneHow};

/// What was counted of the connections of a lane so far. Each count stays at 2^64 - 1.
#[derive(Drop)]
pub struct Counts {
    /// How many requests were answered in whole.
    pub answered: u64,
    /// How many connections were interrupted for want of memory.
    pub cut: u64,
}

impl Counts {
    /// Of no connection.
    pub fn new() -> Counts
        ensures { result ≡ record { answered = 0; cut = 0 } }
    {
        Counts {
            answered: 0,
            cut: 0,
        }
    }

    /// Counts a connection that ended so.
    pub fn add(&mut self, end: &ConnectionEnd)
        ensures answered { self.new.answered ≡ min (self.old.answered + end.now.answered) count_end }
        ensures cut { self.new.cut ≡ cut_by end.now.cause self.old.cut }
    {
        self.answered = self.answered.saturating_add(end.answered);
        self.cut = cut_after(self.cut, end.cause);
    }

    /// The end of a lane, of whose connections so much was counted.
    pub fn end(&self, how: LaneHow) -> LaneEnd
        ensures { result ≡ record { how = how; answered = self.now.answered; cut = self.now.cut } }
    {
        LaneEnd {
            how,
            answered: self.answered,
            cut: self.cut,
        }
    }
}

// One more where memory was lacking.
fn cut_after(cut: u64, cause: Cause) -> u64
    ensures { result ≡ cut_by cause cut }
{
    match cause {
        Cause::Lacking => cut.saturating_add(1),
        Cause::Whole | Cause::Failed => cut,
    }
}
