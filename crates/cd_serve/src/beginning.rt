//! A request begins, and has the configuration under which it began.
ghost use Rattle.std.specs.Prelude.{◌≡◌, ◌≤◌, IfOk, IfErr, ℕ, Option, Some, false};
ghost use Rattle.cd_outside.specs.declared.address.Address.{Address as At};
ghost use Rattle.cd_outside.specs.declared.past.Past.{Past};
ghost use Rattle.cd_wire.specs.declared.request.Request.{Request as Asked};
ghost use Rattle.cd_legal.specs.declared.limits.TheConstants.{MAX_BEGINS};
ghost use Rattle.cd_legal.specs.Begins.{begins_now};
ghost use Rattle.cd_legal.specs.Entry.{entries};
ghost use Rattle.cd_legal.specs.Placed.{Placed};
ghost use Rattle.cd_gate.specs.Passes.{view};
ghost use Rattle.cd_hall.specs.Caches.{IsCacheOf};
ghost use Rattle.cd_hall.specs.Calls.{IsPassOf};
ghost use Rattle.cd_hall.specs.Tickets.{IsTicketOf, HasBegun};
ghost use Rattle.cd_serve.specs.declared.how.How.TheVariants as how;
ghost use Rattle.cd_serve.specs.Guarding.{RequestKeepsUp};
ghost use Rattle.cd_serve.specs.Meanings.{Meaning};
ghost use Rattle.cd_serve.specs.Requests.{OwesNothing, OwesTicket, PublishedNothing, RequestServed, is_fault};

use crate::concluding::retire_due;
use crate::how::How;
use cd_gate::Pass;
use cd_hall::{
    Cache, Hall, NoFetch, Now, Ticket, requests_begin_under_their_tickets,
    the_beginning_of_a_request_is_one_entry,
};
use cd_life::Board;
use cd_module_set::ModuleSet;
use cd_outside::Fixtures;
use std::sync::Wait;

/// Begins a request under the current configuration, without waiting. Where the cache does not have that, it is then fetched, which
/// waits.
///
/// # Errors
///
/// How the request was served instead: `Worn` where it was not begun, since too many have, and `NoMemory` where it has ended again, out
/// of memory for its configuration. Nothing is sent for it here.
pub(crate) fn begin<R: Wait, M: ModuleSet, F: Fixtures>(
    rt: &R,
    hall: &Hall<M, F>,
    pass: &mut Pass<Board<M, F>>,
    cache: &mut Cache<M>,
) -> Result<Ticket<M>, How>
    requires pass { IsPassOf hall.now pass.old }
    requires free { OwesNothing (view pass.old) }
    requires cache { IsCacheOf (view pass.old) cache.old }
    ensures pass { IsPassOf hall.now pass.new }
    ensures cache { IsCacheOf (view pass.new) cache.new }
    ensures begun { IfOk result (λ ticket. (begin : Placed) × HasBegun (view pass.old) (view pass.new) ticket begin) }
    ensures ticket { IfOk result (λ ticket. IsTicketOf (view pass.new) ticket) }
    ensures owes { IfOk result (λ ticket. OwesTicket (view pass.new) ticket.serial) }
    ensures free { IfErr result (λ h. OwesNothing (view pass.new)) }
    ensures served { IfErr result (λ h. (m : Meaning) (at : At) (q : Asked) (past : Option Past) → RequestServed m at q h (view pass.old) (view pass.new) past past) }
    ensures keeps_up { IfErr result (λ h. (since : ℕ) (past : Option Past) → RequestKeepsUp since (Some h) (view pass.old) (view pass.new) past past) }
    ensures worn { IfErr result (λ h. h ≡ how.Worn → MAX_BEGINS ≤ begins_now (entries (view pass.new).seen)) }
    ensures running { IfErr result (λ h. ¬ (h ≡ how.Halted)) }
    ensures fault { IfErr result (λ h. is_fault h ≡ false) }
    ensures nothing { IfErr result (λ h. PublishedNothing (view pass.old) (view pass.new)) }
{
    the_beginning_of_a_request_is_one_entry::<Board<M, F>>();
    match hall.begin_now(pass, cache) {
        Now::Ready(ticket) => {
            requests_begin_under_their_tickets::<Board<M, F>, M>(&ticket);
            Ok(ticket)
        }
        Now::Stale(hold) => match hall.fetch(rt, hold, cache, pass) {
            Ok(ticket) => {
                requests_begin_under_their_tickets::<Board<M, F>, M>(&ticket);
                Ok(ticket)
            }
            Err(NoFetch { duty }) => {
                retire_due(rt, hall, duty, pass);
                Err(How::NoMemory)
            }
        },
        Now::Worn => Err(How::Worn),
    }
}
