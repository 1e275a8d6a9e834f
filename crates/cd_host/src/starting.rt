//! The program starts: it publishes its first configuration, and retires serial 0.
ghost use Rattle.std.specs.Prelude.{◌≡◌, [], None};
ghost use Rattle.cd_legal.specs.Signing.{IsHistory};
ghost use Rattle.cd_gate.specs.Passes.{view};
ghost use Rattle.cd_hall.specs.Calls.{IsPassOf};
ghost use Rattle.cd_hall.specs.Drafts.{IsDraftOf, IsWholeDraft, held};
ghost use Rattle.cd_hall.specs.Publishing.{draft_in};
ghost use Rattle.cd_hall.specs.Tickets.{IsTicketOf};
ghost use Rattle.cd_host.specs.Starting.{IsTried, HasDrafted, HasFinished, HasStarted};

use crate::start_how::StartHow;
use cd_gate::Pass;
use cd_hall::{Hall, Kept, Ticket};
use cd_life::{Board, Draft, Origin};
use cd_module_set::{Loaded, ModuleSet};
use cd_outside::Fixtures;
use cd_serve::open_draft;
use std::alloc::Global;
use std::sync::Wait;

// Publishes a complete draft as the first configuration, and says whether it was. Else the draft is given up.
fn publish_first<R: Wait, M: ModuleSet, F: Fixtures>(
    rt: &R,
    hall: &Hall<M, F>,
    ticket: &Ticket<M>,
    draft: Draft<M>,
    pass: &mut Pass<Board<M, F>>,
) -> bool
    requires pass { IsPassOf hall.now pass.old }
    requires ticket { IsTicketOf (view pass.old) ticket.now }
    requires serial { ticket.now.serial ≡ 0 }
    requires draft { IsDraftOf (view pass.old) draft }
    requires whole { IsWholeDraft (held draft) }
    ensures pass { IsPassOf hall.now pass.new }
    ensures tried { IsTried draft.left.number result (view pass.old) (view pass.new) }
    ensures ticket { (view pass.new).ticket ≡ (view pass.old).ticket }
    ensures none { (view pass.new).draft ≡ None }
    ensures duties { (view pass.new).duties ≡ (view pass.old).duties }
{
    match hall.publish(rt, draft, ticket, Origin::First, pass) {
        Ok(()) => true,
        Err(kept) => {
            hall.abandon(rt, handed_back(kept), pass);
            false
        }
    }
}

// Makes the first configuration and publishes it, under the request of the ticket.
fn draft_first<R: Wait, M: ModuleSet, F: Fixtures>(
    rt: &R,
    alloc: Global,
    hall: &Hall<M, F>,
    ticket: &Ticket<M>,
    first: Loaded<M>,
    pass: &mut Pass<Board<M, F>>,
) -> StartHow
    requires pass { IsPassOf hall.now pass.old }
    requires history { IsHistory (view pass.old).seen }
    requires ticket { IsTicketOf (view pass.old) ticket.now }
    requires free { (view pass.old).draft ≡ None }
    ensures pass { IsPassOf hall.now pass.new }
    ensures drafted { HasDrafted first.tree first.plan result ticket.now.serial (view pass.old) (view pass.new) }
    ensures ticket { (view pass.new).ticket ≡ (view pass.old).ticket }
    ensures none { (view pass.new).draft ≡ None }
    ensures duties { (view pass.new).duties ≡ (view pass.old).duties }
{
    // In a run nobody publishes before the start. The contract of a pass can't tell, so the test stands here.
    if ticket.serial() != 0 {
        return StartHow::Unpublished;
    }
    let mut draft = match hall.draft(rt, alloc, pass, first) {
        Ok(draft) => draft,
        Err(_) => return StartHow::Unpublished,
    };
    match open_draft(rt, hall, &mut draft, pass) {
        Ok(()) => {
            if publish_first(rt, hall, ticket, draft, pass) {
                StartHow::Published
            } else {
                StartHow::Unpublished
            }
        }
        Err(key) => {
            hall.abandon(rt, draft, pass);
            StartHow::FirstRefused(key)
        }
    }
}

// Ends the request of the start, and retires its serial where that is due.
fn finish_first<R: Wait, M: ModuleSet, F: Fixtures>(
    rt: &R,
    hall: &Hall<M, F>,
    ticket: Ticket<M>,
    pass: &mut Pass<Board<M, F>>,
)
    requires pass { IsPassOf hall.now pass.old }
    requires ticket { IsTicketOf (view pass.old) ticket }
    requires none { (view pass.old).duties ≡ [] }
    ensures pass { IsPassOf hall.now pass.new }
    ensures finished { HasFinished ticket.serial (view pass.old) (view pass.new) }
    ensures free { ((view pass.new).ticket ≡ None) × ((view pass.new).draft ≡ (view pass.old).draft) × ((view pass.new).duties ≡ []) }
{
    match hall.finish(ticket, pass) {
        Some(duty) => hall.retire(rt, duty, pass),
        None => {}
    }
}

/// Publishes the program's first configuration and retires serial 0, by a pass that has made nothing and owes nothing. Where a key
/// could not be opened, what had been opened is closed again.
pub fn start_first<R: Wait, M: ModuleSet, F: Fixtures>(
    rt: &R,
    alloc: Global,
    hall: &Hall<M, F>,
    first: Loaded<M>,
    pass: &mut Pass<Board<M, F>>,
) -> StartHow
    requires pass { IsPassOf hall.now pass.old }
    requires free { ((view pass.old).ticket ≡ None) × ((view pass.old).draft ≡ None) × ((view pass.old).duties ≡ []) }
    ensures pass { IsPassOf hall.now pass.new }
    ensures started { HasStarted first.tree first.plan result (view pass.old) (view pass.new) }
    ensures free { ((view pass.new).ticket ≡ None) × ((view pass.new).draft ≡ None) × ((view pass.new).duties ≡ []) }
{
    let ticket = match hall.begin(rt, pass) {
        Ok(ticket) => ticket,
        Err(_) => return StartHow::Unpublished,
    };
    let how = draft_first(rt, alloc, hall, &ticket, first, pass);
    finish_first(rt, hall, ticket, pass);
    how
}

// The draft that was not published.
fn handed_back<M: ModuleSet>(kept: Kept<M>) -> Draft<M>
    ensures { result ≡ draft_in kept }
{
    match kept {
        Kept::Superseded(_, draft) => draft,
        Kept::Full(_, draft) => draft,
        Kept::Exhausted(draft) => draft,
    }
}
