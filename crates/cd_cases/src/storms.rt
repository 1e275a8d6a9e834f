//! The scripts of storms.
//!
//!     {"storm": NUMBER, "found": TAG}
//!     {"storm": NUMBER, "at": PATH, "gives": TREE}
//!     {"storm": NUMBER, "lane": PLACE, "call": PLACE, "found": BYTES}
//!
//! NUMBER is a text. The tag is that of the whole first tree; `at` looks into it. Of a call of a lane the address is found, a
//! space, and the bytes of its one piece; without `call` all calls of the lane are found, one after another, each with a newline
//! at its end.
ghost use Rattle.cd_tree.specs.Tree.{IsSound};

use crate::edits::look_at;
use crate::tags::tag_at;
use crate::words::{found, number_in, put};
use cd_addr::write;
use cd_outside::{Call, MemoryLane};
use cd_rows::{Outcome, RowFault, find, number_of, only, path_at, text_of};
use cd_storm::{Storm, script};
use cd_text::Octets;
use cd_tree::{Path, Tree};
use std::alloc::Global;

pub fn storm_outcome(alloc: Global, row: &Tree) -> Result<Outcome, RowFault> {
    only(alloc, row, "storm at lane call found gives")?;
    let number = number_in(text_of(row, "storm")?)?;
    let storm = script(alloc, number)?;
    of_storm(alloc, row, &storm)
}

fn of_storm(alloc: Global, row: &Tree, storm: &Storm) -> Result<Outcome, RowFault>
    requires { IsSound storm.now.first }
{
    if let Some(lane) = find(row, "lane") {
        return lane_outcome(alloc, row, storm.lanes.as_slice(), lane);
    }
    if find(row, "at").is_some() {
        look_at(alloc, &storm.first, &path_at(alloc, row, "at")?)
    } else {
        tag_at(alloc, &storm.first, &Path::root(alloc))
    }
}

fn lane_outcome(
    alloc: Global,
    row: &Tree,
    lanes: &[MemoryLane],
    lane: &Tree,
) -> Result<Outcome, RowFault> {
    let Some(lane) = lanes.get(usize::from(number_of(lane)?)) else {
        return Err(RowFault::Malformed("a lane that is not there"));
    };
    let calls = lane.script.as_slice();
    let mut out = Octets::new(alloc);
    match find(row, "call") {
        Some(place) => put_call_at(alloc, &mut out, calls, usize::from(number_of(place)?))?,
        None => put_calls(alloc, &mut out, calls)?,
    }
    Ok(found(out))
}

fn put_call_at(
    alloc: Global,
    out: &mut Octets,
    calls: &[Call],
    place: usize,
) -> Result<(), RowFault> {
    match calls.get(place) {
        Some(call) => put_call(alloc, out, call),
        None => Err(RowFault::Malformed("a call that is not there")),
    }
}

fn put_calls(alloc: Global, out: &mut Octets, calls: &[Call]) -> Result<(), RowFault> {
    for call in calls {
        put_call(alloc, out, call)?;
        put(out, "\n")?;
    }
    Ok(())
}

fn put_call(alloc: Global, out: &mut Octets, call: &Call) -> Result<(), RowFault> {
    let [piece] = call.pieces.as_slice() else {
        return Err(RowFault::Malformed("not one piece"));
    };
    let address = write(alloc, &call.address)?;
    put(out, address.as_str())?;
    put(out, " ")?;
    Ok(out.append(piece.as_slice())?)
}
