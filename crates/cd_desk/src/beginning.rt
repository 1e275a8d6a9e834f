ghost use Rattle.std.specs.Prelude.{◌≡◌, ◌<◌, ◌≤◌, [], IfOk, IfErr, length};
ghost use Rattle.cd_legal.specs.declared.limits.TheConstants.{MAX_PASSES};
ghost use Rattle.cd_desk.specs.Desks.{Holds, none_open};

use crate::books::Books;
use crate::callers::Tickets;
use crate::desk::Desk;
use cd_outside::Fixtures;
use cd_pool::Pool;
use cd_text::NoMemory;
use std::alloc::Global;

/// Out of memory for a desk. It hands the fixtures back.
pub struct NoDesk<F> {
    pub fixtures: F,
}

// A place for the ticket of each caller.
fn no_tickets(alloc: Global, callers: u32) -> Result<Vec<Option<u32>>, NoMemory>
    ensures { IfOk result (λ made. made.items ≡ none_open callers) }
{
    let mut made = Vec::new(alloc);
    for caller in 0..callers {
        let _ = caller;
        made.push(None)?;
    }
    Ok(made)
}

// A desk at which nothing has happened.
fn new_desk<F: Fixtures>(alloc: Global, fixtures: F, tickets: Tickets, callers: u32) -> Desk<F>
    requires { tickets.by_caller.items ≡ none_open callers }
    ensures holds { Holds F.calls result result [] }
    ensures fixtures { result.fixtures ≡ fixtures }
    ensures tickets { result.tickets ≡ tickets }
{
    let _ = callers;
    let books = Books {
        pool: Pool::new(alloc),
        next: 0,
        rows: Vec::new(alloc),
        waits: 0,
    };
    Desk {
        fixtures,
        books,
        serial: 0,
        halted: false,
        begun: 0,
        tickets,
        opening_retired: false,
    }
}

// No caller has a ticket.
fn tickets_for(by_caller: Vec<Option<u32>>, callers: u32) -> Tickets
    requires places { by_caller.items ≡ none_open callers }
    requires few { callers ≤ MAX_PASSES }
    ensures { result.by_caller ≡ by_caller }
{
    let _ = callers;
    Tickets { by_caller }
}

impl<F: Fixtures> Desk<F> {
    /// A desk at which nothing has happened, with places for the requests of the callers 0 to `callers` - 1.
    pub fn new(alloc: Global, fixtures: F, callers: u32) -> Result<Desk<F>, NoDesk<F>>
        requires few { callers ≤ MAX_PASSES }
        ensures holds { IfOk result (λ desk. Holds F.calls desk desk []) }
        ensures fixtures { IfOk result (λ desk. desk.fixtures ≡ fixtures) }
        ensures tickets { IfOk result (λ desk. desk.tickets.by_caller.items ≡ none_open callers) }
        ensures err { IfErr result (λ fault. fault.fixtures ≡ fixtures) }
    {
        let Ok(made) = no_tickets(alloc, callers) else {
            return Err(NoDesk { fixtures });
        };
        let tickets = tickets_for(made, callers);
        Ok(new_desk(alloc, fixtures, tickets, callers))
    }
}
