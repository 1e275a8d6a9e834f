//! One exchange with an upstream: the request is put, and the response is read.
ghost use Rattle.std.specs.Prelude.{◌≡◌, ◌≤◌, ◌<◌, ◌++◌, ℕ, List, [], true, false, length, take, Option, Some, option_map, IfNone, OnOk, OnErr};
ghost use Rattle.cd_outside.specs.declared.given.Given.TheVariants as given;
ghost use Rattle.cd_outside.specs.declared.address.Address.{Address as At};
ghost use Rattle.cd_outside.specs.Counts.{Rose};
ghost use Rattle.cd_outside.specs.Given.{IsGivenOf};
ghost use Rattle.cd_peers.specs.declared.dialled.Dialled.{Dialled as Told};
ghost use Rattle.cd_peers.specs.Peers.{unused, after_put};
ghost use Rattle.cd_wire.specs.Render.{is_head};
ghost use Rattle.cd_proxy.specs.declared.exchanges.Outcome.TheVariants as outcome;
ghost use Rattle.cd_proxy.specs.declared.reading.Reading.TheVariants as reading;
ghost use Rattle.cd_proxy.specs.Responses.{IsReading};
ghost use Rattle.cd_proxy.specs.Exchanges.{Tells, Settles, Received, Goes, with_read, Conversed, Exchanged};

use crate::forwarding::forward;
use crate::intake::ResponseIntake;
use crate::limits::READ_BYTES;
use crate::passed_response::PassedResponse;
use crate::reading::Reading;
use cd_outside::{Address, Given, Opened, Taken};
use cd_peers::Peers;
use cd_text::NoMemory;
use cd_wire::Request;
use std::alloc::Global;
use std::sync::Wait;

/// What came of an exchange.
#[derive(Debug, Drop)]
pub enum Outcome {
    /// A response, of which this is passed on.
    Passed(PassedResponse),
    /// What the upstream sent is no response.
    Bad,
    /// A call on the peers failed.
    Failed,
    /// Out of memory.
    NoMemory,
}

// What came of the bytes so far, where that is settled.
fn settled(intake: &mut ResponseIntake, ended: bool) -> Option<Outcome>
    ensures settles { Settles intake.old.bytes ended intake.old.to_head result }
    ensures more { IfNone result (intake.new ≡ intake.old) }
{
    match intake.next(ended) {
        Ok(Reading::Whole(answer)) => Some(Outcome::Passed(answer)),
        Ok(Reading::Bad) => Some(Outcome::Bad),
        Ok(Reading::More) => None,
        Err(NoMemory) => Some(Outcome::NoMemory),
    }
}

// Keeps so many bytes of the buffer.
fn keep(intake: &mut ResponseIntake, buffer: &[u8], count: usize) -> Result<(), NoMemory>
    requires { count ≤ length buffer.now }
    ensures ok { OnOk result (intake.new ≡ record intake.old { bytes = intake.old.bytes ++ take count buffer.now }) }
    ensures err { OnErr result (intake.new ≡ intake.old) }
{
    intake.push(&buffer[..count])
}

// Reads once.
fn read_once<P: Peers>(
    peers: &mut P,
    intake: &mut ResponseIntake,
    buffer: &mut [u8],
) -> Option<Outcome>
    requires busy { P.busy peers.old ≡ true }
    requires room { 0 < length buffer.old }
    ensures room { 0 < length buffer.new }
    ensures head { IfNone result (intake.new.to_head ≡ intake.old.to_head) }
    ensures more { IfNone result (IsReading intake.new.bytes false intake.old.to_head reading.More) }
    ensures busy { P.busy peers.new ≡ true }
    ensures goes { (first : Option (List Told)) (d : Told) → Tells (with_read intake.old.bytes false d) first (P.past peers.old)
        → IsReading intake.old.bytes false intake.old.to_head reading.More → Goes intake.old.to_head intake.new.bytes d first (P.past peers.new) result }
    ensures later { P.faults peers.old ≤ P.faults peers.new }
    ensures failed { result ≡ Some outcome.Failed → Rose (P.faults peers.old) (P.faults peers.new) }
{
    match peers.read(buffer) {
        Taken::Bytes(count) => match keep(intake, buffer, count) {
            Ok(()) => settled(intake, false),
            Err(NoMemory) => Some(Outcome::NoMemory),
        },
        Taken::End => settled(intake, true),
        Taken::Failed => Some(Outcome::Failed),
    }
}

// Reads until it is settled what came.
fn receive<R: Wait, P: Peers>(rt: &R, alloc: Global, peers: &mut P, head: bool) -> Outcome
    requires { P.busy peers.old ≡ true }
    ensures busy { P.busy peers.new ≡ true }
    ensures received { (first : Option (List Told)) (d : Told) → Tells (with_read [] false d) first (P.past peers.old)
        → Received head d first (P.past peers.new) result }
    ensures later { P.faults peers.old ≤ P.faults peers.new }
    ensures failed { result ≡ outcome.Failed → Rose (P.faults peers.old) (P.faults peers.new) }
{
    let mut intake = ResponseIntake::new(alloc, head);
    let mut buffer = [0; READ_BYTES];
    for _ in rt.forever() {
        match read_once(peers, &mut intake, &mut buffer) {
            Some(outcome) => return outcome,
            None => {}
        }
    }
    unreachable!()
}

// Puts these bytes, which may be none.
fn put<P: Peers>(peers: &mut P, bytes: &[u8]) -> Given
    requires { P.busy peers.old ≡ true }
    ensures busy { P.busy peers.new ≡ true }
    ensures past { (part : List ℕ) × IsGivenOf result part bytes.now × (P.past peers.new ≡ option_map (after_put part) (P.past peers.old)) }
    ensures later { P.faults peers.old ≤ P.faults peers.new }
    ensures failed { result ≡ given.Failed → Rose (P.faults peers.old) (P.faults peers.new) }
{
    if bytes.is_empty() {
        return Given::All;
    }
    peers.write(bytes)
}

// Puts the bytes of a request, and reads the response.
fn converse<R: Wait, P: Peers>(
    rt: &R,
    alloc: Global,
    peers: &mut P,
    bytes: &[u8],
    head: bool,
) -> Outcome
    requires { P.busy peers.old ≡ true }
    ensures busy { P.busy peers.new ≡ true }
    ensures conversed { (first : Option (List Told)) (to : At) → Tells (unused to) first (P.past peers.old)
        → Conversed head bytes.now to first (P.past peers.new) result }
    ensures later { P.faults peers.old ≤ P.faults peers.new }
    ensures failed { result ≡ outcome.Failed → Rose (P.faults peers.old) (P.faults peers.new) }
{
    match put(peers, bytes) {
        Given::All => receive(rt, alloc, peers, head),
        Given::Failed => Outcome::Failed,
    }
}

/// Has one exchange with the upstream at this address for the request. None may be there, and none is left.
///
/// It is `Failed` only where the faults of the peers rose in this call, and where the upstream was dialled it was put the bytes of
/// `forward`, or a part of them. It waits as long as the peers do.
pub fn exchange<R: Wait, P: Peers>(
    rt: &R,
    alloc: Global,
    peers: &mut P,
    request: &Request,
    to: &Address,
) -> Outcome
    requires { P.busy peers.old ≡ false }
    ensures busy { P.busy peers.new ≡ false }
    ensures exchanged { Exchanged request.now to.now result (P.past peers.old) (P.past peers.new) }
    ensures later { P.faults peers.old ≤ P.faults peers.new }
    ensures failed { result ≡ outcome.Failed → Rose (P.faults peers.old) (P.faults peers.new) }
{
    let Ok(bytes) = forward(alloc, request, to) else {
        return Outcome::NoMemory;
    };
    match peers.dial(to) {
        Opened::Failed => Outcome::Failed,
        Opened::Ready => {
            let outcome = converse(rt, alloc, peers, bytes.as_slice(), request.is_head());
            peers.end();
            outcome
        }
    }
}
