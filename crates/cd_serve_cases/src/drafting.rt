// Drafts that are made, opened and published by the calls of the hall, one by one.
ghost use Rattle.std.specs.Prelude.{◌≡◌, [], None, IfOk, OnErr};
ghost use Rattle.cd_tree.specs.declared.tree.Tree.TheVariants.{Bool};
ghost use Rattle.cd_hall.specs.Drafts.{IsWholeDraft, held};
ghost use Rattle.cd_pair.specs.Passes.{Has, HasDraft, Runs};

use crate::plans::{On, Player, Set};
use cd_hall::Ticket;
use cd_life::Draft;
use cd_pair::{Refused, draft_of, origin_after};
use cd_serve::{Attempt, ChangeFault, open_draft};
use std::sync::Wait;

/// The second pass lets the first configuration follow, where no other one was before.
pub fn begin_with_first<R: Wait>(on: &On<'_, R>, pass: &mut Player) -> Result<(), Refused>
    requires { Has on.now.hall.now pass.old 1 None None [] }
    ensures { Has on.now.hall.now pass.new 1 None None [] }
{
    let ticket = on.begin(pass, 1)?;
    let published = publish_first(on, pass, &ticket);
    on.end(pass, ticket, 1);
    published
}

fn publish_first<R: Wait>(
    on: &On<'_, R>,
    pass: &mut Player,
    ticket: &Ticket<Set>,
) -> Result<(), Refused>
    requires { Runs on.now.hall.now pass.old 1 ticket.now None }
    ensures { Runs on.now.hall.now pass.new 1 ticket.now None }
{
    let origin = origin_after(on.alloc, ticket, false)?;
    let draft = make_and_open(on, pass, ticket, false, 1)?;
    on.publish(pass, ticket, draft, origin, 1)
}

/// A draft of the other configuration, or of the first one, all of which is there.
pub fn make_and_open<R: Wait>(
    on: &On<'_, R>,
    pass: &mut Player,
    ticket: &Ticket<Set>,
    other: bool,
    number: u32,
) -> Result<Draft<Set>, Refused>
    requires { Runs on.now.hall.now pass.old number ticket.now None }
    ensures draft { IfOk result (λ draft. HasDraft on.now.hall.now pass.new number ticket.now draft) }
    ensures whole { IfOk result (λ draft. IsWholeDraft (held draft)) }
    ensures tree { IfOk result (λ draft. (held draft).tree ≡ Bool other) }
    ensures err { OnErr result (Runs on.now.hall.now pass.new number ticket.now None) }
{
    let mut draft = draft_of(on, pass, ticket, other, number)?;
    match open_draft(on.rt, on.hall, &mut draft, pass) {
        Ok(()) => Ok(draft),
        Err(key) => {
            on.give_up(pass, ticket, draft, number);
            Err(Refused::Closed(key))
        }
    }
}

/// What the attempt came to whose draft was published, or was not.
pub fn attempt_of(published: Result<(), Refused>) -> Attempt {
    match published {
        Ok(()) => Attempt::Published,
        Err(Refused::Superseded(_)) => Attempt::Superseded,
        Err(Refused::Full(serial)) => Attempt::Refused(ChangeFault::StillInUse(serial)),
        Err(Refused::Exhausted) => Attempt::Refused(ChangeFault::NoSerialLeft),
        Err(_) => Attempt::Lacking,
    }
}
