//! The lanes of a row, and what comes on them.
ghost use Rattle.std.specs.Prelude.{◌≡◌, ◌≤◌, false, length, is_some, All, IfOk};
ghost use Rattle.cd_legal.specs.declared.limits.TheConstants.{MAX_LANES};

use crate::conversation::failing;
use crate::meeting::{Happened, Meeting};
use crate::resting::{Places, RestingLane};
use cd_legal::MAX_LANES;
use cd_outside::{Address, Call, MemoryLane};
use cd_rows::{RowFault, bytes_at, bytes_of, find, has, needed, number_of, only};
use cd_text::{List, NoMemory, Octets, Text};
use cd_tree::Tree;
use std::alloc::Global;
use std::sync::Arc;
use std::sync::atomic::AtomicU64;

/// The lanes that the row lists, or the one that the row itself says. What is asked comes in pieces of this size.
pub fn lanes_of(
    alloc: Global,
    row: &Tree,
    size: usize,
    happened: &Happened,
) -> Result<List<RestingLane>, RowFault>
    ensures some { IfOk result (λ lanes. 1 ≤ length lanes) }
    ensures few { IfOk result (λ lanes. length lanes ≤ MAX_LANES) }
    ensures idle { IfOk result (λ lanes. All (λ lane. is_some lane.lane.current ≡ false) lanes) }
{
    let trees = match find(row, "lanes") {
        None => return one_lane(alloc, row, size),
        Some(Tree::Items(trees)) => trees.as_slice(),
        Some(_) => return Err(RowFault::Malformed("lanes that are no list")),
    };
    if trees.is_empty() || trees.len() > MAX_LANES as usize {
        return Err(RowFault::Malformed("no lane, or too many"));
    }
    let mut lanes = List::new(alloc);
    for tree in trees {
        let places = Places {
            coming: meeting_of(row, "meet", &happened.arrivals, trees.len())?,
            waiting: meeting_of(tree, "waits", &happened.answers, 1)?,
            returning: returning_of(alloc, tree, happened)?,
            answering: Some(Meeting::at(Arc::try_clone(&happened.answers)?, 1, 0)),
        };
        lanes.push(listed_lane(alloc, tree, size, places)?)?;
    }
    Ok(lanes)
}

fn one_lane(alloc: Global, row: &Tree, size: usize) -> Result<List<RestingLane>, RowFault>
    ensures one { IfOk result (λ lanes. length lanes ≡ 1) }
    ensures idle { IfOk result (λ lanes. All (λ lane. is_some lane.lane.current ≡ false) lanes) }
{
    let script = script_of(alloc, row, size)?;
    let unkept = failing(alloc, row, "keeps")?;
    let lane = idle_lane(
        alloc,
        script,
        failing(alloc, row, "lane")?,
        unkept,
        Places::none(),
    );
    let mut lanes = List::new(alloc);
    lanes.push(lane)?;
    Ok(lanes)
}

fn listed_lane(
    alloc: Global,
    tree: &Tree,
    size: usize,
    places: Places,
) -> Result<RestingLane, RowFault>
    ensures { IfOk result (λ lane. is_some lane.lane.current ≡ false) }
{
    only(alloc, tree, "asked connections fails pieces returns waits")?;
    let script = script_of(alloc, tree, size)?;
    Ok(idle_lane(
        alloc,
        script,
        lane_failing(alloc, tree)?,
        List::new(alloc),
        places,
    ))
}

// A lane with this script, on which no connection is there, and the numbers of its calls that fail, and of what it fails to keep.
fn idle_lane(
    alloc: Global,
    script: List<Call>,
    failing: List<u64>,
    unkept: List<u64>,
    places: Places,
) -> RestingLane
    ensures { is_some result.lane.current ≡ false }
{
    RestingLane::new(MemoryLane::new(alloc, script, failing), unkept, places)
}

// The numbers of the calls of this lane that fail.
fn lane_failing(alloc: Global, lane: &Tree) -> Result<List<u64>, RowFault> {
    match find(lane, "fails") {
        None => Ok(List::new(alloc)),
        Some(Tree::Items(numbers)) => numbers_of(alloc, numbers.as_slice()),
        Some(_) => Err(RowFault::Malformed("calls that are no list")),
    }
}

// Where a lane waits before its second read, if it says so: until so many openings have begun, or so many keys were closed.
fn returning_of(
    alloc: Global,
    lane: &Tree,
    happened: &Happened,
) -> Result<Option<Meeting>, RowFault> {
    let Some(returns) = find(lane, "returns") else {
        return Ok(None);
    };
    only(alloc, returns, "closings openings within")?;
    match find(returns, "openings") {
        Some(times) => times_of(returns, &happened.openings, times),
        None => {
            let times = needed(alloc, returns, "closings")?;
            times_of(returns, &happened.closings, times)
        }
    }
}

fn times_of(
    tree: &Tree,
    counter: &Arc<AtomicU64, Global>,
    times: &Tree,
) -> Result<Option<Meeting>, RowFault> {
    meeting_of(tree, "within", counter, usize::from(number_of(times)?))
}

/// Where one waits until this counter has come so far, if this member says so: within how many thousands of turns.
pub fn meeting_of(
    tree: &Tree,
    member: &str,
    counter: &Arc<AtomicU64, Global>,
    times: usize,
) -> Result<Option<Meeting>, RowFault> {
    match find(tree, member) {
        None => Ok(None),
        Some(number) => {
            let turns = u32::from(number_of(number)?) * 1_000;
            let counter = Arc::try_clone(counter)?;
            Ok(Some(Meeting::at(counter, times as u64, turns)))
        }
    }
}

/// The numbers that these trees are.
pub fn numbers_of(alloc: Global, trees: &[Tree]) -> Result<List<u64>, RowFault> {
    let mut numbers = List::new(alloc);
    for tree in trees {
        numbers.push(u64::from(number_of(tree)?))?;
    }
    Ok(numbers)
}

// The connections: those that the row lists, or the one that the row itself says, or none.
fn script_of(alloc: Global, row: &Tree, size: usize) -> Result<List<Call>, RowFault> {
    let mut script = List::new(alloc);
    match find(row, "connections") {
        Some(Tree::Items(connections)) => {
            for connection in connections.as_slice() {
                only(alloc, connection, "asked host pieces port")?;
                script.push(call_of(alloc, connection, size)?)?;
            }
        }
        Some(_) => return Err(RowFault::Malformed("connections that are no list")),
        None => {
            if has(row, "asked") || has(row, "pieces") {
                script.push(call_of(alloc, row, size)?)?;
            }
        }
    }
    Ok(script)
}

fn call_of(alloc: Global, connection: &Tree, size: usize) -> Result<Call, RowFault> {
    Ok(Call {
        address: address_of(alloc, connection)?,
        pieces: pieces_of(alloc, connection, size)?,
    })
}

fn address_of(alloc: Global, connection: &Tree) -> Result<Address, RowFault> {
    let host = match find(connection, "host") {
        None => "stdio",
        Some(Tree::Text(host)) => host.as_str(),
        Some(_) => return Err(RowFault::Malformed("a host that is no text")),
    };
    let port = match find(connection, "port") {
        None => 0,
        Some(number) => number_of(number)?,
    };
    Ok(Address {
        host: Text::from_str(alloc, host)?,
        port,
    })
}

// What comes on a connection: its pieces as the row has them, or its bytes in pieces of this size.
fn pieces_of(alloc: Global, connection: &Tree, size: usize) -> Result<List<Octets>, RowFault> {
    match find(connection, "pieces") {
        None => {
            let bytes = bytes_at(alloc, connection, "asked")?;
            Ok(pieces(alloc, bytes.as_slice(), size)?)
        }
        Some(Tree::Items(trees)) => {
            let mut pieces = List::new(alloc);
            for tree in trees.as_slice() {
                pieces.push(bytes_of(alloc, tree)?)?;
            }
            Ok(pieces)
        }
        Some(_) => Err(RowFault::Malformed("pieces that are no list")),
    }
}

pub fn pieces(alloc: Global, bytes: &[u8], size: usize) -> Result<List<Octets>, NoMemory> {
    let mut pieces = List::new(alloc);
    for piece in bytes.chunks(size.max(1)) {
        pieces.push(Octets::from_slice(alloc, piece)?)?;
    }
    Ok(pieces)
}
