//! How long a client may take over what is written to it.
ghost use Rattle.std.specs.Prelude.{◌≡◌};
ghost use Rattle.cd_tcp.specs.Pacing.{slow_after, patience, is_over};

use crate::clock::{millis_since, now};
use crate::{FAST_BYTES, WRITE_MILLIS, WRITE_MILLIS_WHEN_FULL};
use std::time::{Clock, Duration};

/// How long a client was slow, in milliseconds, after one more turn of writing that took so long, and in which it took so many bytes.
/// A turn in which it takes more than `FAST_BYTES` does not count.
pub fn slow_after(slow: u64, took: u64, moved: usize) -> u64
    ensures { result ≡ slow_after slow took moved }
{
    if moved > FAST_BYTES {
        slow
    } else {
        slow.saturating_add(took)
    }
}

fn patience(full: bool) -> u64
    ensures { result ≡ patience full }
{
    if full {
        WRITE_MILLIS_WHEN_FULL
    } else {
        WRITE_MILLIS
    }
}

/// Whether a client was slow for as long as it may be. `full` says that each lane has a connection.
pub fn is_over(slow: u64, full: bool) -> bool
    ensures { result ≡ is_over slow full }
{
    slow >= patience(full)
}

/// How long a client was slow over a piece that is written. The first turn is not timed: mostly it is the only one.
#[derive(Debug, Drop)]
pub struct Pace {
    begun: bool,
    slow: u64,
}

impl Pace {
    /// Nothing was written yet.
    pub fn new() -> Pace {
        Pace {
            begun: false,
            slow: 0,
        }
    }

    /// Whether the time of the client is over.
    pub fn is_over(&self, full: bool) -> bool {
        is_over(self.slow, full)
    }

    /// When a turn begins, where it is timed.
    pub fn begin<R: Clock>(&self, rt: &R) -> Option<Duration> {
        if self.begun { Some(now(rt)) } else { None }
    }

    /// Counts a turn that began then, and in which so many bytes were taken.
    pub fn count<R: Clock>(&mut self, rt: &R, from: Option<Duration>, moved: usize) {
        self.begun = true;
        if let Some(from) = from {
            self.slow = slow_after(self.slow, millis_since(rt, from), moved);
        }
    }
}
