//! A step that runs the program.
ghost use Rattle.std.specs.Prelude.{◌≡◌, ◌≤◌, false, length, is_some, All, IfOk};
ghost use Rattle.cd_legal.specs.declared.limits.TheConstants.{MAX_LANES};

use crate::faults::failing;
use cd_autosave::MemoryDisk;
use cd_outside::{Address, Call, Connection, MemoryFixtures, MemoryLane, MemorySink, MemorySource};
use cd_program::Ended;
use cd_rows::{RowFault, bytes_of, find, only};
use cd_saved::caddy_saved;
use cd_text::{List, NoMemory, Octets, Text};
use cd_tree::Tree;
use std::alloc::Global;
use std::sync::Wait;
use std::thread::Threads;

// Where connections come to: the address of the admin API.
const HOST: &str = "localhost";

const PORT: u16 = 2019;

/// Runs the program over a disk as the step says. It adds what came of it to the text.
///
/// ```text
/// status 0 answered 1 cut 0 published 2 calls 3     `calls`: how many calls the fixtures have had
/// serving initial configuration                     the output
/// served 1 requests under 2 configurations
/// --                                                a line before what each connection was sent
/// HTTP/1.1 200 OK
/// ```
pub fn run_over<R: Threads + Wait + Sync>(
    rt: &R,
    alloc: Global,
    step: &Tree,
    disk: MemoryDisk,
    text: &mut Octets,
) -> Result<MemoryDisk, RowFault> {
    only(alloc, step, "asked configuration fails stops words")?;
    let words = words_of(alloc, step)?;
    let config = source_of(alloc, step)?;
    let out = MemorySink::new(alloc, failing(alloc, step, "output")?);
    let fixtures = MemoryFixtures::new(alloc, failing(alloc, step, "fixtures")?)?;
    let lanes = lanes_of(alloc, step)?;
    run_with(rt, alloc, words, config, out, fixtures, lanes, disk, text)
}

// Runs the program over all that it is handed. All of it is made before, so that nothing is let go of on the way.
fn run_with<R: Threads + Wait + Sync>(
    rt: &R,
    alloc: Global,
    words: List<Text>,
    mut config: MemorySource,
    mut out: MemorySink,
    fixtures: MemoryFixtures,
    lanes: List<MemoryLane>,
    disk: MemoryDisk,
    text: &mut Octets,
) -> Result<MemoryDisk, RowFault>
    requires some { 1 ≤ length lanes }
    requires few { length lanes ≤ MAX_LANES }
    requires idle { All (λ lane. is_some lane.current ≡ false) lanes }
{
    let (ended, disk) = caddy_saved(
        rt,
        alloc,
        words.as_slice(),
        &mut config,
        &mut out,
        fixtures,
        lanes,
        disk,
    );
    append_ended(alloc, text, &ended, &out)?;
    Ok(disk)
}

fn words_of(alloc: Global, step: &Tree) -> Result<List<Text>, RowFault> {
    let Some(Tree::Items(texts)) = find(step, "words") else {
        return Err(RowFault::Malformed("words that are no list"));
    };
    let mut words = List::new(alloc);
    for text in texts.as_slice() {
        match text {
            Tree::Text(text) => words.push(text.copy(alloc)?)?,
            _ => return Err(RowFault::Malformed("a word that is no text")),
        }
    }
    Ok(words)
}

fn source_of(alloc: Global, step: &Tree) -> Result<MemorySource, RowFault> {
    let mut pieces = List::new(alloc);
    if let Some(bytes) = find(step, "configuration") {
        pieces.push(bytes_of(alloc, bytes)?)?;
    }
    Ok(MemorySource::new(pieces, failing(alloc, step, "configuration")?))
}

// One lane, with a connection for each of the bytes that the step asks.
fn lanes_of(alloc: Global, step: &Tree) -> Result<List<MemoryLane>, RowFault>
    ensures one { IfOk result (λ lanes. length lanes ≡ 1) }
    ensures idle { IfOk result (λ lanes. All (λ lane. is_some lane.current ≡ false) lanes) }
{
    let script = script_of(alloc, step)?;
    let lane = idle_lane(alloc, script, failing(alloc, step, "lane")?);
    let mut lanes = List::new(alloc);
    lanes.push(lane)?;
    Ok(lanes)
}

// A lane with this script, on which no connection is there, and the numbers of its calls that fail.
fn idle_lane(alloc: Global, script: List<Call>, failing: List<u64>) -> MemoryLane
    ensures { is_some result.current ≡ false }
{
    MemoryLane::new(alloc, script, failing)
}

fn script_of(alloc: Global, step: &Tree) -> Result<List<Call>, RowFault> {
    let mut script = List::new(alloc);
    match find(step, "asked") {
        None => {}
        Some(Tree::Items(trees)) => {
            for tree in trees.as_slice() {
                script.push(call_of(alloc, tree)?)?;
            }
        }
        Some(_) => return Err(RowFault::Malformed("connections that are no list")),
    }
    Ok(script)
}

fn call_of(alloc: Global, tree: &Tree) -> Result<Call, RowFault> {
    let mut pieces = List::new(alloc);
    pieces.push(bytes_of(alloc, tree)?)?;
    Ok(Call {
        address: Address {
            host: Text::from_str(alloc, HOST)?,
            port: PORT,
        },
        pieces,
    })
}

fn append_ended(
    alloc: Global,
    text: &mut Octets,
    ended: &Ended<MemoryFixtures, MemoryLane>,
    out: &MemorySink,
) -> Result<(), RowFault> {
    let Ended {
        status,
        answered,
        published,
        cut,
        ..
    } = ended;
    let calls = ended.fixtures.calls().len();
    let counts = format!(in alloc;
        "status {status} answered {answered} cut {cut} published {published} calls {calls}\n"
    )?;
    text.append(counts.as_bytes())?;
    text.append(out.bytes().as_slice())?;
    for lane in ended.lanes.as_slice() {
        append_sent(text, lane.past().connections.as_slice())?;
    }
    Ok(())
}

fn append_sent(text: &mut Octets, connections: &[Connection]) -> Result<(), NoMemory> {
    for connection in connections {
        text.append(b"--\n")?;
        text.append(connection.put.as_slice())?;
    }
    Ok(())
}
