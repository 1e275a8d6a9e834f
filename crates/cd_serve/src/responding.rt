//! What an app answers to a request, and what is logged of it.
ghost use Rattle.std.specs.Prelude.{◌≡◌, IfOk, Some, map, option_map};
ghost use Rattle.cd_module_set.specs.Acts.{answer_at, conf_acts};
ghost use Rattle.cd_life.specs.Shares.{compiled_in, conf_in};
ghost use Rattle.cd_serve.specs.Meanings.{AppAnswers, Responds, logged};

use cd_hall::Ticket;
use cd_module_set::{Line, ModuleSet, Responder};
use cd_outside::Address;
use cd_text::{List, NoMemory};
use cd_wire::{Answer, Request};
use std::alloc::Global;

/// An answer, which the ticket and the request lend, and its lines.
#[derive(Drop)]
pub(crate) struct Response<'a> {
    pub answer: Answer<'a>,
    pub lines: List<Line>,
}

/// The answer of the responder at the address under the configuration of the ticket, with its lines, where it is an app. None where
/// no app answers there.
pub(crate) fn respond<'a, M: ModuleSet>(
    alloc: Global,
    ticket: &'a Ticket<M>,
    at: &Address,
    responder: Responder,
    request: &'a Request,
) -> Result<Option<Response<'a>>, NoMemory>
    requires { M.responds (compiled_in ticket.now.share) at.now responder }
    ensures { IfOk result (λ found. Responds (record { acts = M.acts; plan = M.plan }) (conf_in ticket.now.share) at.now request.now (option_map (λ r. (r.answer, map logged r.lines)) found)) }
{
    match M::answer(alloc, ticket.compiled(), at, responder, request)? {
        None => Ok(None),
        Some(answer) => Ok(Some(with_lines(alloc, ticket, at, responder, request, answer)?)),
    }
}

// The answer of an app with its lines.
fn with_lines<'a, M: ModuleSet>(
    alloc: Global,
    ticket: &'a Ticket<M>,
    at: &Address,
    responder: Responder,
    request: &'a Request,
    answer: Answer<'a>,
) -> Result<Response<'a>, NoMemory>
    requires answer { Some answer ≡ answer_at (conf_acts M.acts (conf_in ticket.now.share)) at.now request.now }
    requires responds { M.responds (compiled_in ticket.now.share) at.now responder }
    ensures { IfOk result (λ r. AppAnswers (record { acts = M.acts; plan = M.plan }) (conf_in ticket.now.share) at.now request.now r.answer (map logged r.lines)) }
{
    let lines = M::lines(alloc, ticket.compiled(), at, responder, request, &answer)?;
    Ok(Response { answer, lines })
}
