//! Sources, sinks, fixtures and lanes in memory, of which some calls fail.
//!
//!     {"source": [BYTES, ..], "reads": [2, 2], "failing": [1], "found": "ab, failed; faults 1"}
//!     {"sink": [BYTES, ..], "failing": [1], "found": "all, failed; ab; faults 1"}
//!     {"fixtures": CALLS, "failing": [0], "found": "failed, ready; refused :80, opened stderr; faults 1"}
//!     {"lane": [{"to": ADDRESS, "pieces": [BYTES, ..]}, ..], "calls": CALLS, "failing": [], "found": TEXT}
//!
//! A source has pieces, and each read has room for so many bytes; a sink is handed pieces. `failing` has the numbers of the calls
//! that fail, counted from 0. Found are the answers of the calls, then what the device holds or has recorded, and its faults.
//!
//! CALLS are BYTES, calls between which commas stand: of fixtures `open KEY`, `close KEY` and `shut`, and of a lane `accept`,
//! `read N`, `write WORD`, `rest`, `log KEY WORD` and `end`. `close`, `shut`, `rest` and `end` answer nothing. A lane records of
//! each connection where it came to, what was taken from it, whether it has ended, what was put on it, and its lines; and of its
//! accepts the last answer and the faults:
//!
//!     to :80, took GET, ended, put ok, logged stderr served; last ended; accept faults 0; faults 0
ghost use Rattle.std.specs.Prelude.{◌≡◌, true, false, is_some};

use crate::keys::{address_in, key_in, put_key};
use crate::words::{found, number_in, put, put_answer, steps_of, text_in, words_of};
use cd_addr::write;
use cd_outside::{
    Accepted, Call, Connection, FixtureCall, Fixtures, Given, Key, Lane, Logged, MemoryFixtures,
    MemoryLane, MemorySink, MemorySource, Opened, Past, Sink, Source, Taken,
};
use cd_rows::{Outcome, RowFault, bytes_at, bytes_of, find, number_of, only, text_of};
use cd_text::{List, NoMemory, Octets, Text};
use cd_tree::Tree;
use std::alloc::Global;

// The elements of a member that is a list; none where it is absent.
fn items_of<'a>(row: &'a Tree, name: &str) -> Result<&'a [Tree], RowFault> {
    match find(row, name) {
        None => Ok(&[]),
        Some(Tree::Items(items)) => Ok(items.as_slice()),
        Some(_) => Err(RowFault::Malformed("a member that is no list")),
    }
}

fn failing_of(alloc: Global, row: &Tree) -> Result<List<u64>, RowFault> {
    let mut numbers = List::new(alloc);
    for item in items_of(row, "failing")? {
        numbers.push(u64::from(number_of(item)?))?;
    }
    Ok(numbers)
}

fn pieces_of(alloc: Global, items: &[Tree]) -> Result<List<Octets>, RowFault> {
    let mut pieces = List::new(alloc);
    for item in items {
        pieces.push(bytes_of(alloc, item)?)?;
    }
    Ok(pieces)
}

fn put_faults(alloc: Global, out: &mut Octets, faults: u64) -> Result<(), NoMemory> {
    let words = format!(in alloc; "; faults {faults}")?;
    put(out, words.as_str())
}

fn room_of(alloc: Global, size: u64) -> Result<Vec<u8>, RowFault> {
    let mut room = Vec::new(alloc);
    for _ in 0..size {
        room.push(0)?;
    }
    Ok(room)
}

pub fn source_outcome(alloc: Global, row: &Tree) -> Result<Outcome, RowFault> {
    only(alloc, row, "source reads failing found")?;
    let pieces = pieces_of(alloc, items_of(row, "source")?)?;
    let mut source = MemorySource::new(pieces, failing_of(alloc, row)?);
    let mut out = Octets::new(alloc);
    for size in items_of(row, "reads")? {
        let mut room = room_of(alloc, u64::from(number_of(size)?))?;
        read_source(&mut source, room.as_mut_slice(), &mut out)?;
    }
    put_faults(alloc, &mut out, source.faults())?;
    Ok(found(out))
}

fn read_source(
    source: &mut MemorySource,
    room: &mut [u8],
    out: &mut Octets,
) -> Result<(), RowFault> {
    if room.is_empty() {
        return Err(RowFault::Malformed("a read without room"));
    }
    match source.read(room) {
        Taken::Bytes(count) => Ok(put_answer(out, &room[..count])?),
        Taken::End => Ok(put_answer(out, b"end")?),
        Taken::Failed => Ok(put_answer(out, b"failed")?),
    }
}

pub fn sink_outcome(alloc: Global, row: &Tree) -> Result<Outcome, RowFault> {
    only(alloc, row, "sink failing found")?;
    let mut sink = MemorySink::new(alloc, failing_of(alloc, row)?);
    let mut out = Octets::new(alloc);
    for item in items_of(row, "sink")? {
        let piece = bytes_of(alloc, item)?;
        write_sink(&mut sink, piece.as_slice(), &mut out)?;
    }
    put(&mut out, "; ")?;
    out.append(sink.bytes().as_slice())?;
    put_faults(alloc, &mut out, sink.faults())?;
    Ok(found(out))
}

fn write_sink(sink: &mut MemorySink, piece: &[u8], out: &mut Octets) -> Result<(), RowFault> {
    if piece.is_empty() {
        return Err(RowFault::Malformed("a write of nothing"));
    }
    Ok(put_given(out, sink.write(piece))?)
}

fn put_given(out: &mut Octets, given: Given) -> Result<(), NoMemory> {
    match given {
        Given::All => put_answer(out, b"all"),
        Given::Failed => put_answer(out, b"failed"),
    }
}

pub fn fixtures_outcome(alloc: Global, row: &Tree) -> Result<Outcome, RowFault> {
    only(alloc, row, "fixtures failing found")?;
    let mut fixtures = MemoryFixtures::new(alloc, failing_of(alloc, row)?)?;
    let mut out = Octets::new(alloc);
    let calls = bytes_at(alloc, row, "fixtures")?;
    for call in steps_of(alloc, text_in(calls.as_slice())?)? {
        call_fixtures(alloc, &mut fixtures, call, &mut out)?;
    }
    put_calls(alloc, &mut out, fixtures.calls().as_slice())?;
    put_faults(alloc, &mut out, fixtures.faults())?;
    Ok(found(out))
}

fn call_fixtures(
    alloc: Global,
    fixtures: &mut MemoryFixtures,
    call: &str,
    out: &mut Octets,
) -> Result<(), RowFault> {
    let words = words_of(alloc, call)?;
    match words.as_slice() {
        ["open", key] => {
            let key = key_in(alloc, key)?;
            Ok(put_opened(out, fixtures.open_key(&key))?)
        }
        ["close", key] => {
            let key = key_in(alloc, key)?;
            fixtures.close_key(&key);
            Ok(())
        }
        ["shut"] => {
            fixtures.shut();
            Ok(())
        }
        _ => Err(RowFault::Malformed("no call of fixtures")),
    }
}

fn put_opened(out: &mut Octets, opened: Opened) -> Result<(), NoMemory> {
    match opened {
        Opened::Ready => put_answer(out, b"ready"),
        Opened::Failed => put_answer(out, b"failed"),
    }
}

fn put_calls(alloc: Global, out: &mut Octets, calls: &[FixtureCall]) -> Result<(), NoMemory> {
    let mut recorded = Octets::new(alloc);
    for call in calls {
        put_call(alloc, &mut recorded, call)?;
    }
    put(out, "; ")?;
    out.append(recorded.as_slice())
}

fn put_call(alloc: Global, out: &mut Octets, call: &FixtureCall) -> Result<(), NoMemory> {
    match call {
        FixtureCall::Opened(key) => put_named(alloc, out, b"opened ", key),
        FixtureCall::NotOpened(key) => put_named(alloc, out, b"refused ", key),
        FixtureCall::Closed(key) => put_named(alloc, out, b"closed ", key),
        FixtureCall::Shut => put_answer(out, b"shut"),
    }
}

fn put_named(alloc: Global, out: &mut Octets, word: &[u8], key: &Key) -> Result<(), NoMemory> {
    put_answer(out, word)?;
    put_key(alloc, out, key)
}

pub fn lane_outcome(alloc: Global, row: &Tree) -> Result<Outcome, RowFault> {
    only(alloc, row, "lane calls failing found")?;
    let script = script_of(alloc, items_of(row, "lane")?)?;
    let mut lane = MemoryLane::new(alloc, script, failing_of(alloc, row)?);
    let mut out = Octets::new(alloc);
    let calls = bytes_at(alloc, row, "calls")?;
    for call in steps_of(alloc, text_in(calls.as_slice())?)? {
        call_lane(alloc, &mut lane, call, &mut out)?;
    }
    put_past(alloc, &mut out, lane.past())?;
    put_faults(alloc, &mut out, lane.faults())?;
    Ok(found(out))
}

fn script_of(alloc: Global, items: &[Tree]) -> Result<List<Call>, RowFault> {
    let mut script = List::new(alloc);
    for item in items {
        let address = address_in(alloc, text_of(item, "to")?)?;
        let pieces = pieces_of(alloc, items_of(item, "pieces")?)?;
        script.push(Call { address, pieces })?;
    }
    Ok(script)
}

fn call_lane(
    alloc: Global,
    lane: &mut MemoryLane,
    call: &str,
    out: &mut Octets,
) -> Result<(), RowFault> {
    let words = words_of(alloc, call)?;
    match words.as_slice() {
        ["accept"] if lane.current.is_none() => Ok(accept(alloc, lane, out)?),
        words if lane.current.is_some() => call_busy(alloc, lane, words, out),
        _ => Err(RowFault::Malformed("no call of a lane without a connection")),
    }
}

fn accept(alloc: Global, lane: &mut MemoryLane, out: &mut Octets) -> Result<(), NoMemory>
    requires { is_some lane.old.current ≡ false }
{
    match lane.accept() {
        Accepted::Connection(address) => {
            let word = write(alloc, &address)?;
            put_answer(out, word.as_str().as_bytes())
        }
        Accepted::Ended => put_answer(out, b"ended"),
        Accepted::Failed => put_answer(out, b"failed"),
    }
}

fn call_busy(
    alloc: Global,
    lane: &mut MemoryLane,
    words: &[&str],
    out: &mut Octets,
) -> Result<(), RowFault>
    requires { is_some lane.old.current ≡ true }
{
    match words {
        ["read", size] => {
            let mut room = room_of(alloc, number_in(size)?)?;
            read_lane(lane, room.as_mut_slice(), out)
        }
        ["write", text] => write_lane(lane, text.as_bytes(), out),
        ["log", key, line] => log_lane(alloc, lane, key, line, out),
        ["rest"] => {
            lane.rest();
            Ok(())
        }
        ["end"] => {
            lane.end();
            Ok(())
        }
        _ => Err(RowFault::Malformed("no call of a lane with a connection")),
    }
}

fn read_lane(lane: &mut MemoryLane, room: &mut [u8], out: &mut Octets) -> Result<(), RowFault>
    requires { is_some lane.old.current ≡ true }
{
    if room.is_empty() {
        return Err(RowFault::Malformed("a read without room"));
    }
    match lane.read(room) {
        Taken::Bytes(count) => Ok(put_answer(out, &room[..count])?),
        Taken::End => Ok(put_answer(out, b"end")?),
        Taken::Failed => Ok(put_answer(out, b"failed")?),
    }
}

fn write_lane(lane: &mut MemoryLane, piece: &[u8], out: &mut Octets) -> Result<(), RowFault>
    requires { is_some lane.old.current ≡ true }
{
    if piece.is_empty() {
        return Err(RowFault::Malformed("a write of nothing"));
    }
    Ok(put_given(out, lane.write(piece))?)
}

fn log_lane(
    alloc: Global,
    lane: &mut MemoryLane,
    key: &str,
    line: &str,
    out: &mut Octets,
) -> Result<(), RowFault>
    requires { is_some lane.old.current ≡ true }
{
    let key = key_in(alloc, key)?;
    let line = Text::from_str(alloc, line)?;
    Ok(put_given(out, lane.log(&key, &line))?)
}

fn put_past(alloc: Global, out: &mut Octets, past: &Past) -> Result<(), NoMemory> {
    for connection in past.connections.as_slice() {
        put_connection(alloc, out, connection)?;
    }
    match &past.last {
        None => {}
        Some(Accepted::Connection(_)) => put(out, "; last a connection")?,
        Some(Accepted::Ended) => put(out, "; last ended")?,
        Some(Accepted::Failed) => put(out, "; last failed")?,
    }
    let failed = past.accept_faults;
    let words = format!(in alloc; "; accept faults {failed}")?;
    put(out, words.as_str())
}

fn put_connection(
    alloc: Global,
    out: &mut Octets,
    connection: &Connection,
) -> Result<(), NoMemory> {
    let to = write(alloc, &connection.address)?;
    put(out, "; to ")?;
    put(out, to.as_str())?;
    put_bytes(out, b"took ", connection.taken.as_slice())?;
    if connection.ended {
        put_answer(out, b"ended")?;
    }
    put_bytes(out, b"put ", connection.put.as_slice())?;
    for logged in connection.lines.as_slice() {
        put_line(alloc, out, logged)?;
    }
    Ok(())
}

// Bytes with this word; none where there are none.
fn put_bytes(out: &mut Octets, word: &[u8], bytes: &[u8]) -> Result<(), NoMemory> {
    if bytes.is_empty() {
        return Ok(());
    }
    put_answer(out, word)?;
    out.append(bytes)
}

fn put_line(alloc: Global, out: &mut Octets, logged: &Logged) -> Result<(), NoMemory> {
    put_named(alloc, out, b"logged ", &logged.key)?;
    put(out, " ")?;
    put(out, logged.line.as_str())
}
