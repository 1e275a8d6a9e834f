//! Where configurations may come from.
ghost use Rattle.std.specs.Prelude.{◌≡◌, IfOk};
ghost use Rattle.cd_tree.specs.declared.tree.Tree.TheVariants.{Bool};
ghost use Rattle.cd_life.specs.Fits.{Suits};
ghost use Rattle.cd_life.specs.Origins.{change_of};
ghost use Rattle.cd_life.specs.Shares.{conf_in};
ghost use Rattle.cd_fixed.specs.Fixed.{fixed_change};
ghost use Rattle.cd_pair.specs.Runs.{runs};

use crate::stage::Refused;
use cd_fixed::{Fixed, Plans, request_for};
use cd_hall::Ticket;
use cd_life::Origin;
use std::alloc::Global;

/// Whether the configuration of the ticket runs.
pub fn runs<P: Plans>(ticket: &Ticket<Fixed<P>>) -> bool
    ensures { result ≡ runs (conf_in ticket.now.share) }
{
    ticket.compiled().running
}

/// Where the other configuration comes from, or the first one, that follows that of the ticket: none may after the halt.
pub fn origin_after<P: Plans>(
    alloc: Global,
    ticket: &Ticket<Fixed<P>>,
    other: bool,
) -> Result<Origin, Refused>
    ensures { IfOk result (λ origin. Suits fixed_change (conf_in ticket.now.share) (change_of origin) (Bool other)) }
{
    if runs(ticket) {
        let Ok(request) = request_for(alloc, other) else {
            return Err(Refused::NoMemory);
        };
        return Ok(Origin::of(&request));
    }
    if ticket.halted() {
        return Err(Refused::Halted);
    }
    Ok(Origin::First)
}
