//! The command `reverse-proxy` over forms in memory.
//!
//!     {"words": [TEXT, ..], "lanes": [{"asked": BYTES, "responses": [BYTES, ..], "fails": [NUMBER, ..], "peers_fail": [NUMBER, ..]}, ..],
//!      "output_fails": [NUMBER, ..], "fixtures_fail": [NUMBER, ..], "ends": BYTES}
//!
//! On each lane comes one connection with these bytes, and then its end. Each exchange of its peers reads the next of the responses, and
//! then its end. Calls fail whose numbers are in the lists, counted from 0. What is wanted is
//!
//! ```text
//! status 0 answered 1 cut 0
//! serving proxy                            the output
//! served 1 requests
//! opened closed shut                       what the fixtures were asked for
//! == 1<GET / HTTP/1.1|                     for each lane its exchanges, as for `relay`
//! HTTP/1.1 200 OK                          and what its client was sent
//! ```
ghost use Rattle.std.specs.Prelude.{◌≡◌, ◌≤◌, false, length, is_some, All, IfOk};
ghost use Rattle.cd_peers.specs.declared.limits.TheConstants.{MAX_PLACES};

use crate::relays::{client_of, failing, put_exchange, script_of};
use cd_outside::{FixtureCall, MemoryFixtures, MemoryLane, MemorySink};
use cd_peers::{MAX_PLACES, MemoryPeers};
use cd_reverse_proxy::{ProxyEnded, proxy_main};
use cd_rows::{Outcome, RowFault, bytes_at, find, has, only};
use cd_text::{List, NoMemory, Octets, Text};
use cd_tree::Tree;
use std::alloc::Global;
use std::sync::Wait;
use std::thread::Threads;

/// What the command of the row comes to.
pub fn command_outcome<R: Threads + Wait + Sync>(
    rt: &R,
    alloc: Global,
    row: &Tree,
) -> Result<Outcome, RowFault> {
    only(alloc, row, "words lanes output_fails fixtures_fail ends")?;
    Ok(Outcome {
        member: "ends",
        bytes: ended(rt, alloc, row)?,
    })
}

fn ended<R: Threads + Wait + Sync>(rt: &R, alloc: Global, row: &Tree) -> Result<Octets, RowFault> {
    let words = words_of(alloc, row)?;
    let out = MemorySink::new(alloc, failing(alloc, row, "output_fails")?);
    let fixtures = MemoryFixtures::new(alloc, failing(alloc, row, "fixtures_fail")?)?;
    let Some(Tree::Items(trees)) = find(row, "lanes") else {
        return Err(RowFault::Malformed("lanes that are no list"));
    };
    if trees.is_empty() || trees.len() > MAX_PLACES {
        return Err(RowFault::Malformed("no lane, or too many"));
    }
    let lanes = lanes_of(alloc, trees.as_slice())?;
    let peers = peers_of(alloc, trees.as_slice())?;
    ended_over(rt, alloc, words, out, fixtures, lanes, peers)
}

// All that the command is handed is made before, so that nothing is let go of on the way.
fn ended_over<R: Threads + Wait + Sync>(
    rt: &R,
    alloc: Global,
    words: List<Text>,
    mut out: MemorySink,
    fixtures: MemoryFixtures,
    lanes: List<MemoryLane>,
    peers: List<MemoryPeers>,
) -> Result<Octets, RowFault>
    requires some { 1 ≤ length lanes }
    requires few { length lanes ≤ MAX_PLACES }
    requires each { length peers ≡ length lanes }
    requires lanes { All (λ lane. is_some lane.current ≡ false) lanes }
    requires peers { All (λ of_lane. is_some of_lane.current ≡ false) peers }
{
    let ended = proxy_main(
        rt,
        alloc,
        words.as_slice(),
        &mut out,
        fixtures,
        lanes,
        peers,
    );
    text_of(alloc, &ended, &out)
}

fn words_of(alloc: Global, row: &Tree) -> Result<List<Text>, RowFault> {
    let Some(Tree::Items(trees)) = find(row, "words") else {
        return Err(RowFault::Malformed("words that are no list"));
    };
    let mut words = List::new(alloc);
    for tree in trees.as_slice() {
        let Tree::Text(word) = tree else {
            return Err(RowFault::Malformed("a word that is no text"));
        };
        words.push(word.copy(alloc)?)?;
    }
    Ok(words)
}

fn lanes_of(alloc: Global, trees: &[Tree]) -> Result<List<MemoryLane>, RowFault>
    ensures count { IfOk result (λ lanes. length lanes ≡ length trees.now) }
    ensures idle { IfOk result (λ lanes. All (λ lane. is_some lane.current ≡ false) lanes) }
{
    let mut lanes = List::new(alloc);
    for tree in trees {
        lanes.push(lane_of(alloc, tree)?)?;
    }
    Ok(lanes)
}

fn lane_of(alloc: Global, tree: &Tree) -> Result<MemoryLane, RowFault>
    ensures { IfOk result (λ lane. is_some lane.current ≡ false) }
{
    only(alloc, tree, "asked responses fails peers_fail")?;
    let client = client_of(alloc, bytes_at(alloc, tree, "asked")?)?;
    Ok(MemoryLane::new(alloc, client, failing(alloc, tree, "fails")?))
}

fn peers_of(alloc: Global, trees: &[Tree]) -> Result<List<MemoryPeers>, RowFault>
    ensures count { IfOk result (λ peers. length peers ≡ length trees.now) }
    ensures idle { IfOk result (λ peers. All (λ of_lane. is_some of_lane.current ≡ false) peers) }
{
    let mut peers = List::new(alloc);
    for tree in trees {
        peers.push(peers_in(alloc, tree)?)?;
    }
    Ok(peers)
}

// Where the lane lists no responses, each dial fails.
fn peers_in(alloc: Global, tree: &Tree) -> Result<MemoryPeers, RowFault>
    ensures { IfOk result (λ peers. is_some peers.current ≡ false) }
{
    let script = if has(tree, "responses") {
        script_of(alloc, tree)?
    } else {
        List::new(alloc)
    };
    let fails = failing(alloc, tree, "peers_fail")?;
    Ok(MemoryPeers::new(alloc, script, fails))
}

fn text_of(
    alloc: Global,
    ended: &ProxyEnded<MemoryFixtures, MemoryLane, MemoryPeers>,
    out: &MemorySink,
) -> Result<Octets, RowFault> {
    let ProxyEnded {
        status,
        answered,
        cut,
        ..
    } = ended;
    let counts = format!(in alloc; "status {status} answered {answered} cut {cut}\n")?;
    let mut text = Octets::new(alloc);
    text.append(counts.as_bytes())?;
    text.append(out.bytes().as_slice())?;
    append_calls(&mut text, &ended.fixtures)?;
    for at in 0..ended.lanes.len() {
        text.append(b"\n== ")?;
        append_worker(alloc, &mut text, ended.lanes.get(at), ended.peers.get(at))?;
    }
    Ok(text)
}

fn append_calls(text: &mut Octets, fixtures: &MemoryFixtures) -> Result<(), NoMemory> {
    for call in fixtures.calls().as_slice() {
        match call {
            FixtureCall::Opened(_) => text.append(b"opened ")?,
            FixtureCall::NotOpened(_) => text.append(b"not opened ")?,
            FixtureCall::Closed(_) => text.append(b"closed ")?,
            FixtureCall::Shut => text.append(b"shut")?,
        }
    }
    Ok(())
}

fn append_worker(
    alloc: Global,
    text: &mut Octets,
    lane: Option<&MemoryLane>,
    peers: Option<&MemoryPeers>,
) -> Result<(), RowFault> {
    let (Some(lane), Some(peers)) = (lane, peers) else {
        return Err(RowFault::Malformed("no peers for each lane"));
    };
    for dialled in peers.past().as_slice() {
        put_exchange(alloc, text, dialled)?;
    }
    text.push(b'\n')?;
    for connection in lane.past().connections.as_slice() {
        text.append(connection.put.as_slice())?;
    }
    Ok(())
}
