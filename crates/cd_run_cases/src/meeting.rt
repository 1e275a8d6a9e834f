//! Where the lanes of a row, and its fixtures, wait for one another.
use cd_text::NoMemory;
use std::alloc::Global;
use std::sync::Arc;
use std::sync::atomic::{AtomicU64, Ordering};
use std::thread;

/// How often what is waited for has happened in a run.
#[derive(Drop)]
pub struct Happened {
    /// A lane was asked for its first connection.
    pub arrivals: Arc<AtomicU64, Global>,
    /// A lane was given an answer.
    pub answers: Arc<AtomicU64, Global>,
    /// The opening of a key has begun.
    pub openings: Arc<AtomicU64, Global>,
    /// A key was closed.
    pub closings: Arc<AtomicU64, Global>,
}

impl Happened {
    /// Nothing has happened yet.
    pub fn new(alloc: Global) -> Result<Happened, NoMemory> {
        Ok(Happened {
            arrivals: Arc::new(alloc, AtomicU64::new(0))?,
            answers: Arc::new(alloc, AtomicU64::new(0))?,
            openings: Arc::new(alloc, AtomicU64::new(0))?,
            closings: Arc::new(alloc, AtomicU64::new(0))?,
        })
    }
}

/// Who waits here goes on once something has happened so many times, within a number of turns: that all lanes were asked for a
/// connection, that lanes were given answers, or that keys were opened or closed. So it shows that the lanes are served side by side:
/// were they served one after another, the first one would wait for its last turn.
#[derive(Drop)]
pub struct Meeting {
    happened: Arc<AtomicU64, Global>,
    times: u64,
    turns: u32,
}

impl Meeting {
    /// Where one waits until this counter has come so far.
    pub fn at(happened: Arc<AtomicU64, Global>, times: u64, turns: u32) -> Meeting {
        Meeting {
            happened,
            times,
            turns,
        }
    }

    /// It has happened once more.
    pub fn arrive(&self) {
        let _ = self.happened.fetch_add(1, Ordering::SeqCst);
    }

    /// Waits until it has happened as often, or the turns are used up. Says whether it has.
    pub fn wait(&self) -> bool {
        for _ in 0..self.turns {
            if self.happened.load(Ordering::SeqCst) >= self.times {
                return true;
            }
            thread::yield_now();
        }
        false
    }
}
