//! A change is attempted once: a draft is made and opened, and published under the ticket of the request that asks for it. What is
//! not published is given up.
ghost use Rattle.std.specs.Prelude.{◌≡◌, List, None, Ok};
ghost use Rattle.cd_legal.specs.declared.entry.Signed.{Signed};
ghost use Rattle.cd_legal.specs.Legal.{state_at};
ghost use Rattle.cd_legal.specs.Placed.{Placed};
ghost use Rattle.cd_legal.specs.Signing.{IsHistory};
ghost use Rattle.cd_gate.specs.Passes.{view};
ghost use Rattle.cd_life.specs.Fits.{Suits};
ghost use Rattle.cd_life.specs.Origins.{change_of};
ghost use Rattle.cd_life.specs.Shares.{conf_in};
ghost use Rattle.cd_hall.specs.Calls.{IsPassOf};
ghost use Rattle.cd_hall.specs.Drafts.{IsDraftOf, IsWholeDraft, held};
ghost use Rattle.cd_hall.specs.Publishing.{refusal_in, draft_in};
ghost use Rattle.cd_hall.specs.Tickets.{IsTicketOf};
ghost use Rattle.cd_serve.specs.Attempts.{Works, IsNewDraft, IsDrafted, Asks, Attempted, Concludes, refused_by, undrafted_by};

use crate::fault::ChangeFault;
use crate::opening::open_draft;
use cd_gate::Pass;
use cd_hall::{Hall, Kept, Ticket};
use cd_life::{Board, Draft, DraftFault, Origin};
use cd_module_set::{Loaded, ModuleSet};
use cd_outside::Fixtures;
use cd_wire::Request;
use std::alloc::Global;
use std::sync::Wait;

/// What an attempt to make a change came to.
#[derive(Debug, Drop)]
pub enum Attempt {
    /// The change was made.
    Published,
    /// Another one was made first.
    Superseded,
    /// It can't be made.
    Refused(ChangeFault),
    /// Out of memory for a draft. Nothing was done.
    Lacking,
}

/// Attempts the change that a request asks for under the configuration of its ticket. The pass has no draft, before and after.
pub fn attempt_change<R: Wait, M: ModuleSet, F: Fixtures>(
    rt: &R,
    alloc: Global,
    hall: &Hall<M, F>,
    pass: &mut Pass<Board<M, F>>,
    ticket: &Ticket<M>,
    loaded: Loaded<M>,
    request: &Request,
) -> Attempt
    requires pass { IsPassOf hall.now pass.old }
    requires ticket { IsTicketOf (view pass.old) ticket.now }
    requires free { (view pass.old).draft ≡ None }
    requires asks { Asks M.change (conf_in ticket.now.share) request.now loaded.tree }
    ensures pass { IsPassOf hall.now pass.new }
    ensures ticket { IsTicketOf (view pass.new) ticket.now }
    ensures free { (view pass.new).draft ≡ None }
    ensures attempted { (work : List Placed) × Works (view pass.old) (view pass.new) work
        × Attempted (record { acts = M.acts; plan = M.plan }) loaded.tree request.now (view pass.old).number ticket.now.serial (state_at (view pass.new).seen) work result }
{
    match hall.draft(rt, alloc, pass, loaded) {
        Ok(draft) => open_and_publish(rt, hall, pass, ticket, draft, request),
        Err(fault) => undrafted(fault),
    }
}

fn undrafted(fault: DraftFault) -> Attempt
    ensures { result ≡ undrafted_by fault }
{
    match fault {
        DraftFault::Spent => Attempt::Refused(ChangeFault::NoDraftLeft),
        DraftFault::NoMemory => Attempt::Lacking,
    }
}

// The draft is new. What is said is said of the pass as it was before it made the draft.
fn open_and_publish<R: Wait, M: ModuleSet, F: Fixtures>(
    rt: &R,
    hall: &Hall<M, F>,
    pass: &mut Pass<Board<M, F>>,
    ticket: &Ticket<M>,
    draft: Draft<M>,
    request: &Request,
) -> Attempt
    requires pass { IsPassOf hall.now pass.old }
    requires history { IsHistory (view pass.old).seen }
    requires ticket { IsTicketOf (view pass.old) ticket.now }
    requires draft { IsDraftOf (view pass.old) draft }
    requires new { IsNewDraft (held draft) }
    requires asks { Asks M.change (conf_in ticket.now.share) request.now (held draft).tree }
    ensures pass { IsPassOf hall.now pass.new }
    ensures ticket { IsTicketOf (view pass.new) ticket.now }
    ensures free { (view pass.new).draft ≡ None }
    ensures attempted { (before : _) (found : List Signed) → IsDrafted before (view pass.old) found (held draft) → M.plan (held draft).tree ≡ Ok (held draft).plan
        → (work : List Placed) × Works before (view pass.new) work
        × Attempted (record { acts = M.acts; plan = M.plan }) (held draft).tree request.now before.number ticket.now.serial (state_at (view pass.new).seen) work result }
{
    let mut draft = draft;
    match open_draft(rt, hall, &mut draft, pass) {
        Ok(()) => publish_or_give_up(rt, hall, pass, ticket, draft, Origin::of(request)),
        Err(key) => {
            hall.abandon(rt, draft, pass);
            Attempt::Refused(ChangeFault::CannotOpen(key))
        }
    }
}

fn publish_or_give_up<R: Wait, M: ModuleSet, F: Fixtures>(
    rt: &R,
    hall: &Hall<M, F>,
    pass: &mut Pass<Board<M, F>>,
    ticket: &Ticket<M>,
    draft: Draft<M>,
    origin: Origin,
) -> Attempt
    requires pass { IsPassOf hall.now pass.old }
    requires ticket { IsTicketOf (view pass.old) ticket.now }
    requires draft { IsDraftOf (view pass.old) draft }
    requires whole { IsWholeDraft (held draft) }
    requires change { Suits M.change (conf_in ticket.now.share) (change_of origin) (held draft).tree }
    ensures pass { IsPassOf hall.now pass.new }
    ensures free { (view pass.new).draft ≡ None }
    ensures concludes { Concludes (view pass.old) (view pass.new) (held draft) ticket.now.serial (change_of origin) result }
{
    match hall.publish(rt, draft, ticket, origin, pass) {
        Ok(()) => Attempt::Published,
        Err(kept) => {
            let (draft, attempt) = refused(kept);
            hall.abandon(rt, draft, pass);
            attempt
        }
    }
}

// The draft that is handed back, and what the attempt has come to.
fn refused<M: ModuleSet>(kept: Kept<M>) -> (Draft<M>, Attempt)
    ensures draft { result.0 ≡ draft_in kept }
    ensures attempt { result.1 ≡ refused_by (refusal_in kept) }
{
    match kept {
        Kept::Superseded(_, draft) => (draft, Attempt::Superseded),
        Kept::Full(serial, draft) => (draft, Attempt::Refused(ChangeFault::StillInUse(serial))),
        Kept::Exhausted(draft) => (draft, Attempt::Refused(ChangeFault::NoSerialLeft)),
    }
}
