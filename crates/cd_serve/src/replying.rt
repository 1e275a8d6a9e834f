//! An answer is sent on the connection of a lane, and its lines are logged.
ghost use Rattle.std.specs.Prelude.{◌≡◌, true, false, map, []};
ghost use Rattle.cd_serve.specs.declared.how.How.TheVariants as how;
ghost use Rattle.cd_serve.specs.Meanings.{logged, sent};
ghost use Rattle.cd_serve.specs.Requests.{is_fault, IsLogged, IsSent, KeepsConnection};

use crate::how::How;
use crate::sending::{says_close, sent, spare, write_sent};
use cd_module_set::Line;
use cd_outside::{Given, Lane};
use cd_session::put;
use cd_wire::{Answer, Request};
use std::alloc::Global;

/// Sends an answer to the request, of which nothing is logged.
pub(crate) fn reply_with<L: Lane>(
    alloc: Global,
    lane: &mut L,
    request: &Request,
    answer: &Answer<'_>,
) -> How
    requires { L.busy lane.old ≡ true }
    ensures sent { IsSent result request.now answer.now [] [] (L.past lane.old) (L.past lane.new) }
    ensures since { L.since lane.new ≡ L.since lane.old }
    ensures lane { KeepsConnection (is_fault result ≡ true) (L.busy lane.new) (L.faults lane.old) (L.faults lane.new) }
{
    let Ok(bytes) = sent(alloc, request, answer) else {
        return How::NoMemory;
    };
    send(lane, request, answer, bytes.as_slice(), &[])
}

/// Sends an answer to the request, and logs these lines. The answer is written in place of what the vector holds.
pub(crate) fn reply_by<L: Lane>(
    alloc: Global,
    lane: &mut L,
    out: &mut Vec<u8>,
    request: &Request,
    answer: &Answer<'_>,
    lines: &[Line],
) -> How
    requires { L.busy lane.old ≡ true }
    ensures sent { IsSent result request.now answer.now (map logged lines.now) [] (L.past lane.old) (L.past lane.new) }
    ensures since { L.since lane.new ≡ L.since lane.old }
    ensures lane { KeepsConnection (is_fault result ≡ true) (L.busy lane.new) (L.faults lane.old) (L.faults lane.new) }
{
    let Ok(()) = write_sent(alloc, out, request, answer) else {
        return How::NoMemory;
    };
    let how = send(lane, request, answer, out.as_slice(), lines);
    spare(alloc, out);
    how
}

/// Sends these bytes of an answer to the request, and logs these lines. That takes no memory.
pub(crate) fn send<L: Lane>(
    lane: &mut L,
    request: &Request,
    answer: &Answer<'_>,
    bytes: &[u8],
    lines: &[Line],
) -> How
    requires busy { L.busy lane.old ≡ true }
    requires bytes { bytes.now ≡ sent request.now answer.now }
    ensures sent { IsSent result request.now answer.now (map logged lines.now) [] (L.past lane.old) (L.past lane.new) }
    ensures made { ¬ (result ≡ how.NoMemory) }
    ensures since { L.since lane.new ≡ L.since lane.old }
    ensures lane { KeepsConnection (is_fault result ≡ true) (L.busy lane.new) (L.faults lane.old) (L.faults lane.new) }
{
    match put(lane, bytes) {
        Given::Failed => return How::Failed,
        Given::All => {}
    }
    if !log_all(lane, lines) {
        return How::Unlogged;
    }
    How::Answered(says_close(request, answer))
}

// Gives each line to its writer, until one fails. Says whether all were given.
fn log_all<L: Lane>(lane: &mut L, lines: &[Line]) -> bool
    requires { L.busy lane.old ≡ true }
    ensures logged { IsLogged result (map logged lines.now) (L.past lane.old) (L.past lane.new) }
    ensures since { L.since lane.new ≡ L.since lane.old }
    ensures lane { KeepsConnection (result ≡ false) (L.busy lane.new) (L.faults lane.old) (L.faults lane.new) }
{
    let mut next = 0;
    'logging: while next < lines.len() {
        let line = &lines[next];
        match lane.log(&line.key, &line.text) {
            Given::Failed => return false,
            Given::All => {}
        }
        next += 1;
    }
    true
}
