//! What a run of the program came to, as one text.
//!
//! ```text
//! status 0 answered 1 cut 0 published 1 over        and `rested 3`, where the row asks for it
//! serving initial configuration                     the output
//! served 1 requests under 1 configurations
//! opened listen localhost:2019                      what the fixtures were asked for, where the row asks for it
//! ==                                                a line before each lane, where the row lists them; `== alone`, where it
//!                                                   has waited for the others in vain
//! --                                                a line before what each connection was sent
//! HTTP/1.1 200 OK
//! logged stderr "s" GET / 200 0                     the lines that were logged while it was there
//! kept 2 after 0 {"apps":null}                      the configurations that were kept meanwhile, each after so many bytes, where the
//!                                                   row asks for it
//! ```
use crate::opening::MeetingFixtures;
use crate::resting::RestingLane;
use cd_addr::write;
use cd_outside::{
    Accepted, FixtureCall, KeepRecord, Key, Logged, MemoryFixtures, MemorySink, Past,
};
use cd_program::Ended;
use cd_rows::RowFault;
use cd_text::{NoMemory, Octets};
use std::alloc::Global;

/// What the text of a row has beside the status, the counts, the output and what was sent.
#[derive(Clone, Copy)]
pub struct Shown {
    pub rests: bool,
    pub calls: bool,
    pub lanes: bool,
    pub keeps: bool,
}

/// The text of a run that ended so with this output.
pub fn text_of(
    alloc: Global,
    ended: &Ended<MeetingFixtures, RestingLane>,
    out: &MemorySink,
    shown: Shown,
) -> Result<Octets, RowFault> {
    let mut text = Octets::new(alloc);
    append_counts(alloc, &mut text, ended)?;
    if shown.rests {
        append_rests(alloc, &mut text, ended)?;
    }
    text.push(b'\n')?;
    text.append(out.bytes().as_slice())?;
    if shown.calls {
        append_calls(alloc, &mut text, &ended.fixtures.fixtures)?;
    }
    for lane in ended.lanes.as_slice() {
        if shown.lanes {
            text.append(if lane.alone { b"== alone\n" } else { b"==\n" })?;
        }
        append_sent(alloc, &mut text, lane.lane.past(), shown.keeps)?;
    }
    Ok(text)
}

fn append_counts(
    alloc: Global,
    text: &mut Octets,
    ended: &Ended<MeetingFixtures, RestingLane>,
) -> Result<(), RowFault> {
    let Ended {
        status,
        answered,
        published,
        cut,
        ..
    } = ended;
    let counts = format!(in alloc;
        "status {status} answered {answered} cut {cut} published {published}"
    )?;
    text.append(counts.as_bytes())?;
    if are_over(ended.lanes.as_slice()) {
        text.append(b" over")?;
    }
    Ok(())
}

// How often the first lane could rest.
fn append_rests(
    alloc: Global,
    text: &mut Octets,
    ended: &Ended<MeetingFixtures, RestingLane>,
) -> Result<(), RowFault> {
    let Some(lane) = ended.lanes.get(0) else {
        return Err(RowFault::Malformed("the program gave no lane back"));
    };
    let rests = lane.rests;
    let rested = format!(in alloc; " rested {rests}")?;
    text.append(rested.as_bytes())?;
    Ok(())
}

// Whether no lane gives a further connection.
fn are_over(lanes: &[RestingLane]) -> bool {
    lanes.iter().all(|lane| is_over(lane.lane.past()))
}

fn is_over(past: &Past) -> bool {
    matches!(&past.last, Some(Accepted::Ended) | Some(Accepted::Failed))
}

fn append_calls(
    alloc: Global,
    text: &mut Octets,
    fixtures: &MemoryFixtures,
) -> Result<(), RowFault> {
    for call in fixtures.calls().as_slice() {
        match call {
            FixtureCall::Opened(key) => append_call(alloc, text, "opened", key)?,
            FixtureCall::NotOpened(key) => append_call(alloc, text, "not opened", key)?,
            FixtureCall::Closed(key) => append_call(alloc, text, "closed", key)?,
            FixtureCall::Shut => text.append(b"shut\n")?,
        }
    }
    Ok(())
}

fn append_call(alloc: Global, text: &mut Octets, what: &str, key: &Key) -> Result<(), RowFault> {
    text.append(what.as_bytes())?;
    match key {
        Key::Listen(address) => {
            text.append(b" listen ")?;
            text.append(write(alloc, address)?.as_str().as_bytes())?;
        }
        Key::Writer(name) => {
            text.append(b" writer ")?;
            text.append(name.as_str().as_bytes())?;
        }
    }
    text.push(b'\n')?;
    Ok(())
}

fn append_sent(alloc: Global, text: &mut Octets, past: &Past, keeps: bool) -> Result<(), NoMemory> {
    for connection in past.connections.as_slice() {
        text.append(b"--\n")?;
        text.append(connection.put.as_slice())?;
        append_lines(text, connection.lines.as_slice())?;
        if keeps {
            append_keeps(alloc, text, connection.keeps.as_slice())?;
        }
    }
    Ok(())
}

// The configurations that were kept, each with its serial and the bytes that were put before, on lines of their own.
fn append_keeps(alloc: Global, text: &mut Octets, keeps: &[KeepRecord]) -> Result<(), NoMemory> {
    for kept in keeps {
        let serial = kept.serial;
        let put = kept.put;
        let first = format!(in alloc; "\nkept {serial} after {put} ")?;
        text.append(first.as_bytes())?;
        text.append(kept.text.as_slice())?;
    }
    if !keeps.is_empty() {
        text.push(b'\n')?;
    }
    Ok(())
}

// The lines that were logged, each with its writer, on lines of their own.
fn append_lines(text: &mut Octets, lines: &[Logged]) -> Result<(), NoMemory> {
    if !lines.is_empty() {
        text.push(b'\n')?;
    }
    for logged in lines {
        append_line(text, logged)?;
    }
    Ok(())
}

fn append_line(text: &mut Octets, logged: &Logged) -> Result<(), NoMemory> {
    text.append(b"logged ")?;
    if let Key::Writer(name) = &logged.key {
        text.append(name.as_str().as_bytes())?;
    }
    text.push(b' ')?;
    text.append(logged.line.as_str().as_bytes())
}
