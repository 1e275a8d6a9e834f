//! A connection that is relayed by a worker with peers in memory.
//!
//!     {"relay": BYTES, "policy": POLICY, "upstreams": NUMBER, "responses": [BYTES, ..], "fails": [NUMBER, ..], "answered": BYTES}
//!
//! The bytes come on the connection, and then its end. Each exchange reads the next of the responses, and then its end; a dial after the last one fails, and so
//! do the calls on the peers whose numbers are in `fails`, counted from 0. What is wanted is, for each exchange, the port of its
//! upstream, `<`, the first line that was put on it, `|`, and then what the client was sent.
ghost use Rattle.std.specs.Prelude.{◌≡◌, ◌<◌, length, false, is_some};

use crate::picks::{count_of, policy_of, upstreams_of};
use cd_gateway::relay_lane;
use cd_outside::{Address, Call, MemoryLane};
use cd_peers::{Balancer, Dialled, MemoryPeers, Policy};
use cd_rows::{Outcome, RowFault, bytes_at, bytes_of, find, number_of, only, text_of};
use cd_text::{List, NoMemory, Octets, decimal, split_at_byte};
use cd_tree::Tree;
use std::alloc::Global;
use std::sync::{Mutex, Wait};

/// What the requests of the row come to.
pub fn relay_outcome<R: Wait>(rt: &R, alloc: Global, row: &Tree) -> Result<Outcome, RowFault> {
    only(
        alloc,
        row,
        "relay policy upstreams responses fails answered",
    )?;
    let policy = policy_of(text_of(row, "policy")?)?;
    let count = count_of(row)?;
    let requests = bytes_at(alloc, row, "relay")?;
    let bytes = relayed(rt, alloc, row, policy, count, requests)?;
    Ok(Outcome {
        member: "answered",
        bytes,
    })
}

pub(crate) fn script_of(alloc: Global, row: &Tree) -> Result<List<Call>, RowFault> {
    let Some(Tree::Items(responses)) = find(row, "responses") else {
        return Err(RowFault::Malformed("responses that are no list"));
    };
    let mut script = List::new(alloc);
    for response in responses.as_slice() {
        let bytes = bytes_of(alloc, response)?;
        script.push(call_of(alloc, bytes)?)?;
    }
    Ok(script)
}

fn call_of(alloc: Global, bytes: Octets) -> Result<Call, NoMemory> {
    let mut pieces = List::new(alloc);
    pieces.push(bytes)?;
    Ok(Call {
        address: Address::stdio(alloc)?,
        pieces,
    })
}

// The numbers that the row lists under this name.
pub(crate) fn failing(alloc: Global, row: &Tree, name: &str) -> Result<List<u64>, RowFault> {
    let mut numbers = List::new(alloc);
    if let Some(Tree::Items(trees)) = find(row, name) {
        for tree in trees.as_slice() {
            numbers.push(u64::from(number_of(tree)?))?;
        }
    }
    Ok(numbers)
}

// Makes the parts first, so that nothing large is owned where one can't be made.
fn relayed<R: Wait>(
    rt: &R,
    alloc: Global,
    row: &Tree,
    policy: Policy,
    count: u16,
    requests: Octets,
) -> Result<Octets, RowFault> {
    let script = script_of(alloc, row)?;
    let fails = failing(alloc, row, "fails")?;
    let client = client_of(alloc, requests)?;
    let known = upstreams_of(alloc, count)?;
    let upstreams = upstreams_of(alloc, count)?;
    let balancer = Mutex::new(Balancer::new(policy, known));
    let mut lane = MemoryLane::new(alloc, client, List::new(alloc));
    let mut peers = MemoryPeers::new(alloc, script, fails);
    Ok(played(
        rt,
        alloc,
        &balancer,
        upstreams.as_slice(),
        &mut lane,
        &mut peers,
    )?)
}

// One connection, on which these bytes come, and then the end.
pub(crate) fn client_of(alloc: Global, requests: Octets) -> Result<List<Call>, NoMemory> {
    let mut script = List::new(alloc);
    script.push(call_of(alloc, requests)?)?;
    Ok(script)
}

fn played<R: Wait>(
    rt: &R,
    alloc: Global,
    balancer: &Mutex<Balancer>,
    upstreams: &[Address],
    lane: &mut MemoryLane,
    peers: &mut MemoryPeers,
) -> Result<Octets, NoMemory>
    requires some { 0 < length upstreams.now }
    requires lane { is_some lane.old.current ≡ false }
    requires peers { is_some peers.old.current ≡ false }
{
    relay_lane(rt, alloc, balancer, upstreams, 0, lane, peers);
    told(alloc, lane, peers)
}

fn told(alloc: Global, lane: &MemoryLane, peers: &MemoryPeers) -> Result<Octets, NoMemory> {
    let mut out = Octets::new(alloc);
    for dialled in peers.past().as_slice() {
        put_exchange(alloc, &mut out, dialled)?;
    }
    for connection in lane.past().connections.as_slice() {
        out.append(connection.put.as_slice())?;
    }
    Ok(out)
}

pub(crate) fn put_exchange(
    alloc: Global,
    out: &mut Octets,
    dialled: &Dialled,
) -> Result<(), NoMemory> {
    let port = decimal(alloc, u64::from(dialled.address.port))?;
    out.append(port.as_str().as_bytes())?;
    out.push(b'<')?;
    if let Some((line, _)) = split_at_byte(dialled.put.as_slice(), b'\r') {
        out.append(line)?;
    }
    out.push(b'|')
}
