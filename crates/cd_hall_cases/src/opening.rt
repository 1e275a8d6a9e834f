// The keys of a draft are opened.
ghost use Rattle.std.specs.Prelude.{◌≡◌, OnOk};
ghost use Rattle.cd_hall.specs.Drafts.{IsWholeDraft, held};
ghost use Rattle.cd_pair.specs.Passes.{HasDraft, IsNew};

use crate::plans::{On, Player, Set};
use cd_hall::{KeyFailed, Ticket};
use cd_life::Draft;
use cd_outside::Key;
use std::sync::Wait;

/// Makes all instances of the draft, and starts all its apps, up to the first key that could not be opened.
pub fn open<R: Wait>(
    on: &On<'_, R>,
    pass: &mut Player,
    ticket: &Ticket<Set>,
    draft: &mut Draft<Set>,
    number: u32,
) -> Result<(), Key>
    requires draft { HasDraft on.now.hall.now pass.old number ticket.now draft.old }
    requires new { IsNew (held draft.old) (held draft.old).tree }
    ensures draft { HasDraft on.now.hall.now pass.new number ticket.now draft.new }
    ensures tree { OnOk result ((held draft.new).tree ≡ (held draft.old).tree) }
    ensures whole { OnOk result (IsWholeDraft (held draft.new)) }
{
    let _ = ticket;
    let _ = number;
    'making: while draft.modules_left() > 0 {
        if let Err(KeyFailed { key }) = on.hall.provision(on.rt, draft, pass) {
            return Err(key);
        }
    }
    'starting: while draft.apps_left() > 0 {
        if let Err(KeyFailed { key }) = on.hall.start(on.rt, draft, pass) {
            return Err(key);
        }
    }
    Ok(())
}
