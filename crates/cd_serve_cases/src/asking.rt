// Requests ask for changes.
ghost use Rattle.std.specs.Prelude.{◌≡◌, [], None, true};
ghost use Rattle.cd_life.specs.Shares.{conf_in};
ghost use Rattle.cd_pair.specs.Passes.{Has, Runs};
ghost use Rattle.cd_pair.specs.Runs.{runs};

use crate::plans::{On, Player, Set};
use cd_fixed::{load_fixed, request_for};
use cd_hall::Ticket;
use cd_pair::{Refused, runs};
use cd_serve::{Attempt, attempt_change};
use std::sync::Wait;

/// What came of a request for a change.
#[derive(Drop)]
pub struct Asked {
    /// The serial under which the request began.
    pub serial: u32,
    /// What its attempt came to. `None` where nobody answers under that serial, so that nothing was attempted.
    pub attempt: Option<Attempt>,
}

/// The second pass asks so many times for the first configuration, each time by a request of its own.
pub fn change_times<R: Wait>(on: &On<'_, R>, pass: &mut Player, times: u32) -> Result<(), Refused>
    requires { Has on.now.hall.now pass.old 1 None None [] }
    ensures { Has on.now.hall.now pass.new 1 None None [] }
{
    for _ in 0..times {
        change(on, pass, false, 1)?;
    }
    Ok(())
}

/// The pass asks for the other configuration, or for the first one, by a request of its own.
pub fn change<R: Wait>(
    on: &On<'_, R>,
    pass: &mut Player,
    other: bool,
    number: u32,
) -> Result<Asked, Refused>
    requires { Has on.now.hall.now pass.old number None None [] }
    ensures { Has on.now.hall.now pass.new number None None [] }
{
    let ticket = on.begin(pass, number)?;
    let asked = ask(on, pass, &ticket, other, number);
    on.end(pass, ticket, number);
    Ok(asked)
}

/// The request of the pass asks for the other configuration, or for the first one.
pub fn ask<R: Wait>(
    on: &On<'_, R>,
    pass: &mut Player,
    ticket: &Ticket<Set>,
    other: bool,
    number: u32,
) -> Asked
    requires { Runs on.now.hall.now pass.old number ticket.now None }
    ensures serial { result.serial ≡ ticket.now.serial }
    ensures runs { Runs on.now.hall.now pass.new number ticket.now None }
{
    let serial = ticket.serial();
    let attempt = if runs(ticket) {
        Some(attempt(on, pass, ticket, other, number))
    } else {
        None
    };
    Asked { serial, attempt }
}

// Attempts the change that a request for the other configuration, or for the first one, asks for.
fn attempt<R: Wait>(
    on: &On<'_, R>,
    pass: &mut Player,
    ticket: &Ticket<Set>,
    other: bool,
    number: u32,
) -> Attempt
    requires has { Runs on.now.hall.now pass.old number ticket.now None }
    requires runs { runs (conf_in ticket.now.share) ≡ true }
    ensures { Runs on.now.hall.now pass.new number ticket.now None }
{
    let _ = number;
    let Ok(request) = request_for(on.alloc, other) else {
        return Attempt::Lacking;
    };
    let Ok(loaded) = load_fixed(on.alloc, other) else {
        return Attempt::Lacking;
    };
    attempt_change(on.rt, on.alloc, on.hall, pass, ticket, loaded, &request)
}
