//! What `main` hands over goes to `caddy_main` and `caddy_saved` here, since a function that owns many values over many exits is slow to check.
ghost use Rattle.std.specs.Prelude.{◌≡◌, ◌≤◌, ◌↔◌, false, None, length, All, IfOk};
ghost use Rattle.cd_program.specs.Words.{command, has_file};
ghost use Rattle.cd_program.specs.declared.command.Command.TheVariants.{Unknown};
ghost use Rattle.cd_saved.specs.Words.{saved_run};
ghost use Rattle.caddy_run.specs.declared.lanes.TheConstants.{MAX_LANES};

use crate::lanes::one_lane;
use cd_autosave::Disk;
use cd_outside::{Fixtures, Lane, MemoryFixtures, Sink, Source};
use cd_program::{Ended, caddy_main};
use cd_saved::caddy_saved;
use cd_text::{List, NoMemory, Text};
use std::alloc::Global;
use std::sync::Wait;
use std::thread::Threads;

/// How a call of the program has ended.
#[derive(Clone, Copy, Debug, PartialEq, Eq)]
pub struct Served {
    /// The exit status.
    pub status: u8,
    /// How many connections were cut short, out of memory.
    pub cut: u64,
}

fn outcome<F: Drop, L: Drop>(ended: Ended<F, L>) -> Served
    ensures { (result.status ≡ ended.status) × (result.cut ≡ ended.cut) }
{
    Served {
        status: ended.status,
        cut: ended.cut,
    }
}

/// How the program ends over these fixtures and lanes.
pub fn over_lanes<
    R: Threads + Wait + Sync,
    S: Source,
    O: Sink + Drop,
    F: Fixtures + Send + Drop,
    L: Lane + Send + Drop,
>(
    rt: &R,
    alloc: Global,
    words: &[Text],
    config: &mut S,
    mut out: O,
    fixtures: F,
    lanes: List<L>,
) -> Served
    requires some { 1 ≤ length lanes }
    requires few { length lanes ≤ MAX_LANES }
    requires idle { All (λ lane. L.busy lane ≡ false) lanes }
    ensures known { result.status ≤ 5 }
    ensures usage { (result.status ≡ 2) ↔ (command words.now ≡ Unknown) }
    ensures unread { has_file (command words.now) ≡ false → config.new ≡ config.old }
{
    outcome(caddy_main(rt, alloc, words, config, &mut out, fixtures, lanes))
}

/// How the program ends over these fixtures and lanes, which save on this disk.
pub fn over_disk<
    R: Threads + Wait + Sync,
    S: Source,
    O: Sink + Drop,
    F: Fixtures + Send + Drop,
    L: Lane + Send + Drop,
    D: Disk + Send + Drop,
>(
    rt: &R,
    alloc: Global,
    words: &[Text],
    config: &mut S,
    mut out: O,
    fixtures: F,
    lanes: List<L>,
    disk: D,
) -> Served
    requires some { 1 ≤ length lanes }
    requires few { length lanes ≤ MAX_LANES }
    requires idle { All (λ lane. L.busy lane ≡ false) lanes }
    ensures known { result.status ≤ 5 }
    ensures usage { (result.status ≡ 2) ↔ ((saved_run words.now ≡ None) × (command words.now ≡ Unknown)) }
    ensures unread { has_file (command words.now) ≡ false → config.new ≡ config.old }
{
    let (ended, disk) = caddy_saved(rt, alloc, words, config, &mut out, fixtures, lanes, disk);
    drop(disk);
    outcome(ended)
}

/// The status of the program over this lane alone, and fixtures in memory.
pub fn over_streams<R: Threads + Wait + Sync, S: Source, O: Sink + Drop, L: Lane + Send + Drop>(
    rt: &R,
    alloc: Global,
    words: &[Text],
    config: &mut S,
    out: O,
    lane: L,
) -> Result<u8, NoMemory>
    requires { L.busy lane ≡ false }
    ensures known { IfOk result (λ status. status ≤ 5) }
    ensures usage { IfOk result (λ status. (status ≡ 2) ↔ (command words.now ≡ Unknown)) }
    ensures unread { has_file (command words.now) ≡ false → config.new ≡ config.old }
{
    let fixtures = MemoryFixtures::new(alloc, List::new(alloc))?;
    let lanes = one_lane(alloc, lane)?;
    Ok(over_lanes(rt, alloc, words, config, out, fixtures, lanes).status)
}
