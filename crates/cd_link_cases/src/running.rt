//! The program is run over a network.
ghost use Rattle.std.specs.Prelude.{◌≡◌, ◌≤◌, false, length, is_some, All, IfOk};
ghost use Rattle.cd_tree.specs.Tree.{IsSound};
ghost use Rattle.cd_legal.specs.declared.limits.TheConstants.{MAX_LANES};

use crate::judging::{Sent, judged};
use crate::network::{Network, NetworkDoor};
use crate::reading::{addresses_of, links_of, listed, number_at};
use cd_legal::MAX_LANES;
use cd_link::{Link, LinkLane, MemoryStream};
use cd_outside::{MemoryFixtures, MemorySink, MemorySource};
use cd_program::caddy_main;
use cd_rows::{Outcome, RowFault, is_true, needed, only};
use cd_text::{List, Octets, Text};
use cd_tree::{Tree, print};
use std::alloc::Global;
use std::sync::Wait;
use std::thread::Threads;

// The words with which the program is called.
const WORDS: [&str; 3] = ["run", "--config", "network.json"];

type NetworkLane<'n, R> = LinkLane<MemoryStream, NetworkDoor<'n, R>>;

/// What a network comes to: the status of the program, and for each connection `whole` or `part`, or what its client was sent where
/// that is neither. Where a row says that a connection may be cut, `whole` is called `part` too.
pub fn network_outcome<R: Threads + Wait + Sync>(
    rt: &R,
    alloc: Global,
    row: &Tree,
) -> Result<Outcome, RowFault>
    requires { IsSound row.now }
{
    only(alloc, row, "configuration ends lanes links room turns")?;
    let trees = listed(row)?;
    let network = Network::new(
        alloc,
        addresses_of(alloc, trees)?,
        links_of(alloc, trees)?,
        u32::from(number_at(row, "turns", 1_000)?) * 64,
        usize::from(number_at(row, "room", 16)?),
    );
    let lanes = lanes_of(rt, alloc, &network, number_at(row, "lanes", 1)?)?;
    let status = status_of(rt, alloc, row, lanes)?;
    let over = network.over(rt);
    let mut text = Octets::new(alloc);
    text.append(if status == 0 { b"served" } else { b"failed" })?;
    for (number, tree) in trees.iter().enumerate() {
        append_link(alloc, &mut text, over.as_slice(), number, tree)?;
    }
    Ok(Outcome {
        member: "ends",
        bytes: text,
    })
}

fn lanes_of<'n, R: Wait>(
    rt: &'n R,
    alloc: Global,
    network: &'n Network,
    count: u16,
) -> Result<List<NetworkLane<'n, R>>, RowFault>
    ensures some { IfOk result (λ lanes. 1 ≤ length lanes) }
    ensures few { IfOk result (λ lanes. length lanes ≤ MAX_LANES) }
    ensures idle { IfOk result (λ lanes. All (λ lane. is_some lane.held ≡ false) lanes) }
{
    let mut lanes = List::new(alloc);
    for _ in 0..count {
        let lane = LinkLane::new(alloc, NetworkDoor { rt, network });
        lanes.push(lane)?;
    }
    if lanes.is_empty() || lanes.len() > MAX_LANES as usize {
        return Err(RowFault::Malformed("no lane, or too many"));
    }
    Ok(lanes)
}

// The status with which the program ends.
fn status_of<'n, R: Threads + Wait + Sync>(
    rt: &R,
    alloc: Global,
    row: &Tree,
    lanes: List<NetworkLane<'n, R>>,
) -> Result<u8, RowFault>
    requires sound { IsSound row.now }
    requires some { 1 ≤ length lanes }
    requires few { length lanes ≤ MAX_LANES }
    requires idle { All (λ lane. is_some lane.held ≡ false) lanes }
{
    let text = print(alloc, needed(alloc, row, "configuration")?)?;
    let mut pieces = List::new(alloc);
    pieces.push(Octets::from_slice(alloc, text.as_str().as_bytes())?)?;
    let mut config = MemorySource::new(pieces, List::new(alloc));
    let mut out = MemorySink::new(alloc, List::new(alloc));
    let fixtures = MemoryFixtures::new(alloc, List::new(alloc))?;
    let mut words = List::new(alloc);
    for word in WORDS {
        words.push(Text::from_str(alloc, word)?)?;
    }
    let ended = caddy_main(
        rt,
        alloc,
        words.as_slice(),
        &mut config,
        &mut out,
        fixtures,
        lanes,
    );
    Ok(ended.status)
}

fn append_link(
    alloc: Global,
    text: &mut Octets,
    over: &[Link<MemoryStream>],
    number: usize,
    tree: &Tree,
) -> Result<(), RowFault> {
    text.push(b' ')?;
    let Some(sent) = sent_of(over, number) else {
        text.append(b"lost")?;
        return Ok(());
    };
    let may_be_cut = is_true(tree, "cut")?;
    match judged(alloc, sent, tree)? {
        Sent::Whole if !may_be_cut => text.append(b"whole")?,
        Sent::Whole => text.append(b"part")?,
        Sent::Part => text.append(b"part")?,
        Sent::Other => text.append(sent)?,
    }
    Ok(())
}

// What the client of the connection with this number was sent.
fn sent_of(over: &[Link<MemoryStream>], number: usize) -> Option<&[u8]> {
    for link in over {
        if link.stream().number() == number {
            return Some(link.stream().sent());
        }
    }
    None
}
