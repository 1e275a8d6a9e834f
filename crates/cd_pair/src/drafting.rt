//! Drafts are made, published and given up.
ghost use Rattle.std.specs.Prelude.{◌≡◌, None, IfOk, OnErr};
ghost use Rattle.cd_tree.specs.declared.tree.Tree.TheVariants.{Bool};
ghost use Rattle.cd_life.specs.Fits.{Suits};
ghost use Rattle.cd_life.specs.Origins.{change_of};
ghost use Rattle.cd_life.specs.Shares.{conf_in};
ghost use Rattle.cd_hall.specs.Drafts.{IsWholeDraft, held};
ghost use Rattle.cd_hall.specs.Publishing.{draft_in};
ghost use Rattle.cd_pair.specs.Passes.{Runs, HasDraft, IsNew};

use crate::stage::{Player, Refused, Stage};
use cd_fixed::{Fixed, Plans, load_fixed};
use cd_hall::{Kept, Ticket};
use cd_life::{Draft, Origin};
use cd_module_set::ModuleSet;
use std::sync::Wait;

impl<'a, R: Wait, M: ModuleSet> Stage<'a, R, M> {
    /// Publishes the draft, all of which is there, or gives it up and says why it was not published.
    pub fn publish(
        &self,
        pass: &mut Player<M>,
        ticket: &Ticket<M>,
        draft: Draft<M>,
        origin: Origin,
        number: u32,
    ) -> Result<(), Refused>
        requires draft { HasDraft self.now.hall.now pass.old number ticket.now draft }
        requires whole { IsWholeDraft (held draft) }
        requires change { Suits M.change (conf_in ticket.now.share) (change_of origin) (held draft).tree }
        ensures { Runs self.now.hall.now pass.new number ticket.now None }
    {
        match self.hall.publish(self.rt, draft, ticket, origin, pass) {
            Ok(()) => Ok(()),
            Err(kept) => {
                let (draft, refused) = taken_back(kept);
                self.give_up(pass, ticket, draft, number);
                Err(refused)
            }
        }
    }

    /// Gives the draft up.
    pub fn give_up(&self, pass: &mut Player<M>, ticket: &Ticket<M>, draft: Draft<M>, number: u32)
        requires draft { HasDraft self.now.hall.now pass.old number ticket.now draft }
        ensures { Runs self.now.hall.now pass.new number ticket.now None }
    {
        let _ = ticket;
        let _ = number;
        self.hall.abandon(self.rt, draft, pass);
    }
}

// The draft that is handed back, and why.
fn taken_back<M: ModuleSet>(kept: Kept<M>) -> (Draft<M>, Refused)
    ensures { result.0 ≡ draft_in kept }
{
    match kept {
        Kept::Superseded(serial, draft) => (draft, Refused::Superseded(serial)),
        Kept::Full(serial, draft) => (draft, Refused::Full(serial)),
        Kept::Exhausted(draft) => (draft, Refused::Exhausted),
    }
}

/// A draft of the other configuration, or of the first one.
pub fn draft_of<R: Wait, P: Plans>(
    on: &Stage<'_, R, Fixed<P>>,
    pass: &mut Player<Fixed<P>>,
    ticket: &Ticket<Fixed<P>>,
    other: bool,
    number: u32,
) -> Result<Draft<Fixed<P>>, Refused>
    requires { Runs on.now.hall.now pass.old number ticket.now None }
    ensures draft { IfOk result (λ draft. HasDraft on.now.hall.now pass.new number ticket.now draft) }
    ensures new { IfOk result (λ draft. IsNew (held draft) (Bool other)) }
    ensures err { OnErr result (Runs on.now.hall.now pass.new number ticket.now None) }
{
    let _ = ticket;
    let _ = number;
    let Ok(loaded) = load_fixed::<P>(on.alloc, other) else {
        return Err(Refused::NoMemory);
    };
    match on.hall.draft(on.rt, on.alloc, pass, loaded) {
        Ok(draft) => Ok(draft),
        Err(_) => Err(Refused::NoMemory),
    }
}
