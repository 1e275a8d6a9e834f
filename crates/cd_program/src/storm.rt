//! `storm N`: the workload of a number is served over forms in memory, and a line says what it came to.
ghost use Rattle.std.specs.Prelude.{◌≡◌, IfOk, IsTrue, option_map};
ghost use Rattle.cd_tree.specs.Tree.{IsSound};
ghost use Rattle.cd_life.specs.Shares.{conf_in};
ghost use Rattle.cd_outside.specs.Devices.{device};
ghost use Rattle.cd_program.specs.Storm.{HasDigits, HasStormed, IsFinalOf, IsUnfailing, Storms, have_no_fault, storm_line};

use crate::status::Status;
use cd_admin::Administered;
use cd_host::{HostEnd, HostHow, run_host, say};
use cd_life::Share;
use cd_module_set::{Loaded, ModuleSet};
use cd_outside::{Given, MemoryFixtures, MemoryLane, MemorySink, Sink};
use cd_storm::{Storm, script};
use cd_tags::{made_tags_hold, read_if_match, tag};
use cd_text::{List, NoMemory, Text};
use cd_tree::{Path, Tree};
use std::alloc::Global;
use std::sync::Wait;
use std::thread::Threads;

/// How a storm ended, and what was counted in it.
#[derive(Clone, Copy, Debug)]
pub struct StormEnd {
    /// Done, WriteFault or NoMemory.
    pub status: Status,
    /// How many requests were answered in whole. It stays at 2^64 - 1.
    pub answered: u64,
    /// How many configurations were published.
    pub published: u32,
}

// What a storm came to.
#[derive(Drop)]
struct Stormed {
    answered: u64,
    published: u32,
    // those of the tag of the configuration that was published last
    digits: Text,
}

// The line of a storm.
#[tactic(auto, unfolding(crate::specs::Storm::storm_line))]
fn storm_line(
    alloc: Global,
    number: u64,
    answered: u64,
    published: u32,
    digits: &str,
) -> Result<Text, NoMemory>
    ensures { IfOk result (λ line. line ≡ storm_line number answered published digits.now) }
{
    let line = format!(in alloc;
        "storm {number}: {answered} answered, {published} configurations, final {digits}\n"
    )?;
    Ok(Text::from_string(line))
}

// The digits of the tag of the whole tree.
fn digits_of(alloc: Global, tree: &Tree) -> Result<Text, NoMemory>
    requires { IsSound tree.now }
    ensures { IfOk result (HasDigits tree.now) }
{
    let root = Path::root(alloc);
    made_tags_hold(&root);
    let Ok(tag) = tag(alloc, tree, &root) else {
        return Err(NoMemory);
    };
    match read_if_match(alloc, tag.as_str().as_bytes()) {
        Ok(read) => Ok(read.hex),
        Err(_) => Err(NoMemory),
    }
}

// The digits of the configuration that was published last.
fn final_digits<M: ModuleSet>(alloc: Global, last: &Option<Share<M>>) -> Result<Text, NoMemory>
    ensures { IfOk result (IsFinalOf (option_map (λ share. conf_in share) last.now)) }
{
    match last {
        Some(Share::Running(loaded)) => digits_of(alloc, &loaded.tree),
        _ => Err(NoMemory),
    }
}

// Loads the first configuration. Where it is none, that counts as out of memory.
fn load_first<M: ModuleSet>(alloc: Global, first: Tree) -> Result<Loaded<M>, NoMemory>
    requires { IsSound first }
    ensures { IfOk result (λ loaded. loaded.tree ≡ first) }
{
    match M::load(alloc, first) {
        Ok(loaded) => Ok(loaded),
        Err(_) => Err(NoMemory),
    }
}

// Whether no call of these lanes has failed.
fn are_unfailing(lanes: &[MemoryLane]) -> bool
    ensures { result ≡ have_no_fault lanes.now }
{
    lanes.iter().all(|lane| lane.faults() == 0)
}

// Whether the lanes were served to their ends, and no form in memory lacked memory.
fn is_unfailing(how: &HostHow, fixtures: &MemoryFixtures, lanes: &[MemoryLane], cut: u64) -> bool
    ensures { IsTrue result → IsUnfailing how.now fixtures.now.faults.count lanes.now cut }
{
    match how {
        HostHow::Served => {}
        HostHow::FirstRefused(_) | HostHow::WriteFault | HostHow::NoMemory => return false,
    }
    cut == 0 && fixtures.faults() == 0 && are_unfailing(lanes)
}

// Serves the lanes of a storm under its first configuration and those that they make of it.
fn run_script<R: Threads + Wait + Sync, M: Administered + Send + Sync>(
    rt: &R,
    alloc: Global,
    number: u64,
) -> Result<Stormed, NoMemory>
where
    M::Compiled: Send + Sync,
    ensures { IfOk result (λ done. HasStormed (record { acts = M.acts; plan = M.plan }) number done.answered done.published done.digits) }
{
    let fixtures = MemoryFixtures::new(alloc, List::new(alloc))?;
    let mut said = MemorySink::new(alloc, List::new(alloc));
    let Storm { first, lanes } = script(alloc, number)?;
    let first = load_first::<M>(alloc, first)?;
    let HostEnd {
        fixtures,
        lanes,
        answered,
        published,
        cut,
        how,
        last,
    } = run_host::<R, M, MemoryFixtures, MemoryLane, MemorySink>(
        rt,
        alloc,
        fixtures,
        lanes.into_vec(),
        first,
        &mut said,
    );
    if !is_unfailing(&how, &fixtures, lanes.as_slice(), cut) {
        return Err(NoMemory);
    }
    let digits = final_digits(alloc, &last)?;
    Ok(Stormed {
        answered,
        published,
        digits,
    })
}

// Out of memory. Nothing was written.
fn unwritten() -> StormEnd
    ensures { result ≡ record { status = Status.NoMemory; answered = 0; published = 0 } }
{
    StormEnd {
        status: Status::NoMemory,
        answered: 0,
        published: 0,
    }
}

/// Serves the storm of a number over forms in memory of which no call is made to fail, and says in one line what it came to.
///
/// | status | when |
/// |---|---|
/// | Done | the storm was run to its end, and the line is written |
/// | WriteFault | the line could not be written |
/// | NoMemory | out of memory |
///
/// Out of memory it is too where a connection of the storm was interrupted, a form in memory counted a fault, the lanes were not
/// served to their ends, the first configuration could not be loaded, or none was published last. Then nothing is written.
pub fn run_storm<R: Threads + Wait + Sync, M: Administered + Send + Sync, O: Sink>(
    rt: &R,
    alloc: Global,
    number: u64,
    out: &mut O,
) -> StormEnd
where
    M::Compiled: Send + Sync,
    ensures { Storms (record { acts = M.acts; plan = M.plan }) number result.answered result.published (device O.holds O.faults out.old out.new) result.status }
{
    let Ok(done) = run_script::<R, M>(rt, alloc, number) else {
        return unwritten();
    };
    let Stormed {
        answered,
        published,
        digits,
    } = done;
    let Ok(line) = storm_line(alloc, number, answered, published, digits.as_str()) else {
        return unwritten();
    };
    match say(out, line.as_str()) {
        Given::All => StormEnd {
            status: Status::Done,
            answered,
            published,
        },
        Given::Failed => StormEnd {
            status: Status::WriteFault,
            answered,
            published,
        },
    }
}
