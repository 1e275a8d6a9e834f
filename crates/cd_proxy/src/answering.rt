//! What a client is answered, by what came of the exchange.
ghost use Rattle.std.specs.Prelude.{◌≡◌, ◌≤◌, true, IfOk};
ghost use Rattle.cd_outside.specs.Counts.{Rose};
ghost use Rattle.cd_proxy.specs.declared.answering.How.TheVariants as how;
ghost use Rattle.cd_proxy.specs.declared.exchanges.Outcome.TheVariants as outcome;
ghost use Rattle.cd_proxy.specs.Answers.{bad_gateway, answer_of};
ghost use Rattle.cd_proxy.specs.Replies.{IsSent};

use crate::exchanges::Outcome;
use crate::passed_response::PassedResponse;
use cd_outside::{Given, Lane};
use cd_session::put;
use cd_text::{List, NoMemory};
use cd_wire::{Answer, Field, Lent, Request, render};
use std::alloc::Global;

/// What became of the answer to a request.
#[derive(Clone, Copy, Debug, PartialEq, Eq)]
pub enum How {
    /// It was sent; whether the connection closes after it.
    Answered(bool),
    /// The lane failed in it.
    Failed,
    /// Out of memory: nothing was sent.
    NoMemory,
}

// The answer where no response can be passed on (RFC 9110, section 15.6.3).
fn bad_gateway(alloc: Global) -> Result<Answer<'static>, NoMemory>
    ensures { IfOk result (λ answer. answer ≡ bad_gateway) }
{
    let mut fields = List::new(alloc);
    fields.push(Field {
        name: Lent::shared(b"server"),
        value: Lent::shared(b"Caddy"),
    })?;
    Ok(Answer {
        status: 502,
        fields,
        body: Lent::shared(b""),
        close: false,
    })
}

fn send<L: Lane>(alloc: Global, lane: &mut L, request: &Request, answer: &Answer<'_>) -> How
    requires { L.busy lane.old ≡ true }
    ensures busy { L.busy lane.new ≡ true }
    ensures sent { IsSent result request.now answer.now (L.past lane.old) (L.past lane.new) }
    ensures later { L.faults lane.old ≤ L.faults lane.new }
    ensures failed { result ≡ how.Failed → Rose (L.faults lane.old) (L.faults lane.new) }
{
    let Ok(bytes) = render(alloc, answer, request.is_head(), request.close()) else {
        return How::NoMemory;
    };
    match put(lane, bytes.as_slice()) {
        Given::All => How::Answered(answer.close || request.close()),
        Given::Failed => How::Failed,
    }
}

// Passes the response on.
fn pass_on<L: Lane>(
    alloc: Global,
    lane: &mut L,
    request: &Request,
    response: &PassedResponse,
) -> How
    requires { L.busy lane.old ≡ true }
    ensures busy { L.busy lane.new ≡ true }
    ensures sent { IsSent result request.now response.now (L.past lane.old) (L.past lane.new) }
    ensures later { L.faults lane.old ≤ L.faults lane.new }
    ensures failed { result ≡ how.Failed → Rose (L.faults lane.old) (L.faults lane.new) }
{
    match response.answer(alloc) {
        Ok(answer) => send(alloc, lane, request, &answer),
        Err(_) => How::NoMemory,
    }
}

// Says that no response came.
fn say_bad<L: Lane>(alloc: Global, lane: &mut L, request: &Request) -> How
    requires { L.busy lane.old ≡ true }
    ensures busy { L.busy lane.new ≡ true }
    ensures sent { IsSent result request.now bad_gateway (L.past lane.old) (L.past lane.new) }
    ensures later { L.faults lane.old ≤ L.faults lane.new }
    ensures failed { result ≡ how.Failed → Rose (L.faults lane.old) (L.faults lane.new) }
{
    match bad_gateway(alloc) {
        Ok(answer) => send(alloc, lane, request, &answer),
        Err(_) => How::NoMemory,
    }
}

/// Answers the request by what came of it.
pub(crate) fn reply<L: Lane>(alloc: Global, lane: &mut L, request: &Request, came: &Outcome) -> How
    requires { L.busy lane.old ≡ true }
    ensures busy { L.busy lane.new ≡ true }
    ensures sent { IsSent result request.now (answer_of came.now) (L.past lane.old) (L.past lane.new) }
    ensures owed { (came.now ≡ outcome.NoMemory) → (result ≡ how.NoMemory) }
    ensures later { L.faults lane.old ≤ L.faults lane.new }
    ensures failed { result ≡ how.Failed → Rose (L.faults lane.old) (L.faults lane.new) }
{
    match came {
        Outcome::Passed(response) => pass_on(alloc, lane, request, response),
        Outcome::Bad => say_bad(alloc, lane, request),
        Outcome::Failed => say_bad(alloc, lane, request),
        Outcome::NoMemory => How::NoMemory,
    }
}
