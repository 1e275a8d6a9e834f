//! A configuration that was published is kept before that is acknowledged.
ghost use Rattle.std.specs.Prelude.{◌≡◌, ◌≤◌, [], IfOk, IfSome, length, true};
ghost use Rattle.cd_outside.specs.declared.given.Given.TheVariants as given;
ghost use Rattle.cd_outside.specs.declared.limits.TheConstants.{MAX_KEPT_BYTES};
ghost use Rattle.cd_serve.specs.declared.how.How.TheVariants as how;
ghost use Rattle.cd_serve.specs.Meanings.{sent};
ghost use Rattle.cd_serve.specs.Requests.{IsReady, Keeps, IsSent, KeepsConnection, is_fault, keeps_as, text_to_keep};

use crate::how::How;
use crate::replying::send;
use crate::sending::sent;
use cd_admin::{Administered, persists};
use cd_hall::Ticket;
use cd_module_set::Loaded;
use cd_outside::{Given, Lane};
use cd_text::{NoMemory, Octets, Text};
use cd_tree::print;
use cd_wire::{Answer, Request};
use std::alloc::Global;
use std::sync::Wait;

/// What is written out before a change is made.
#[derive(Drop)]
pub(crate) struct Acknowledgement {
    /// The bytes of the answer to it.
    pub bytes: Octets,
    /// The serial that its configuration gets.
    pub serial: u32,
    /// The text by which that is kept. None where it is not to be kept.
    pub text: Option<Text>,
}

/// Writes out what acknowledges the change to this configuration, by this answer to the request of the ticket. Serials end far
/// below 2^32 - 1, so there is a next one.
pub(crate) fn write_out<M: Administered>(
    alloc: Global,
    ticket: &Ticket<M>,
    loaded: &Loaded<M>,
    request: &Request,
    answer: &Answer<'_>,
) -> Result<Acknowledgement, NoMemory>
    ensures { IfOk result (λ made. IsReady made ticket.now.serial loaded.now.tree request.now answer.now) }
{
    let bytes = sent(alloc, request, answer)?;
    let text = text_to_keep(alloc, loaded)?;
    match ticket.serial().checked_add(1) {
        Some(serial) => Ok(Acknowledgement {
            bytes,
            serial,
            text,
        }),
        None => Err(NoMemory),
    }
}

// The text by which a configuration is kept. None where it is not to be kept.
fn text_to_keep<M: Administered>(
    alloc: Global,
    loaded: &Loaded<M>,
) -> Result<Option<Text>, NoMemory>
    ensures text { IfOk result (λ made. made ≡ text_to_keep loaded.now.tree) }
    ensures short { IfOk result (λ made. IfSome made (λ text. length text ≤ MAX_KEPT_BYTES)) }
{
    if persists(alloc, &loaded.tree)? {
        Ok(Some(print(alloc, &loaded.tree)?))
    } else {
        Ok(None)
    }
}

/// Keeps the configuration of a change that was made, where it is to be kept, and then sends the answer. Where it could not be
/// kept, nothing is sent. That takes no memory.
pub(crate) fn acknowledge<R: Wait, L: Lane>(
    rt: &R,
    lane: &mut L,
    ready: &Acknowledgement,
    request: &Request,
    answer: &Answer<'_>,
) -> How
    requires busy { L.busy lane.old ≡ true }
    requires short { IfSome ready.now.text (λ text. length text ≤ MAX_KEPT_BYTES) }
    requires bytes { ready.now.bytes ≡ sent request.now answer.now }
    ensures sent { IsSent result request.now answer.now [] (keeps_as ready.now.serial ready.now.text) (L.past lane.old) (L.past lane.new) }
    ensures made { ¬ (result ≡ how.NoMemory) }
    ensures since { L.since lane.new ≡ L.since lane.old }
    ensures lane { KeepsConnection (is_fault result ≡ true) (L.busy lane.new) (L.faults lane.old) (L.faults lane.new) }
{
    match keep(rt, lane, ready.serial, &ready.text) {
        Given::Failed => return How::Failed,
        Given::All => {}
    }
    send(lane, request, answer, ready.bytes.as_slice(), &[])
}

// Keeps the configuration of the serial, where there is a text to keep.
fn keep<R: Wait, L: Lane>(rt: &R, lane: &mut L, serial: u32, text: &Option<Text>) -> Given
    requires busy { L.busy lane.old ≡ true }
    requires short { IfSome text.now (λ text. length text ≤ MAX_KEPT_BYTES) }
    ensures keeps { Keeps result (keeps_as serial text.now) (L.past lane.old) (L.past lane.new) }
    ensures since { L.since lane.new ≡ L.since lane.old }
    ensures lane { KeepsConnection (result ≡ given.Failed) (L.busy lane.new) (L.faults lane.old) (L.faults lane.new) }
{
    match text {
        Some(text) => lane.keep(rt, serial, text.as_str().as_bytes()),
        None => Given::All,
    }
}
