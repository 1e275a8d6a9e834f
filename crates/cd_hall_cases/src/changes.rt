// Configurations follow one another.
ghost use Rattle.std.specs.Prelude.{◌≡◌, [], None};
ghost use Rattle.cd_pair.specs.Passes.{Has, Runs};

use crate::opening::open;
use crate::plans::{On, Player, Set};
use cd_hall::Ticket;
use cd_pair::{Refused, draft_of, origin_after};
use std::sync::Wait;

/// The first pass lets the plain configuration follow so many times, each by a request of its own.
pub fn reload_times<R: Wait>(on: &On<'_, R>, pass: &mut Player, times: u32) -> Result<(), Refused>
    requires { Has on.now.hall.now pass.old 0 None None [] }
    ensures { Has on.now.hall.now pass.new 0 None None [] }
{
    for _ in 0..times {
        reload(on, pass, false, 0)?;
    }
    Ok(())
}

/// The pass lets the wide configuration follow, or the plain one, by a request of its own.
pub fn reload<R: Wait>(
    on: &On<'_, R>,
    pass: &mut Player,
    wide: bool,
    number: u32,
) -> Result<(), Refused>
    requires { Has on.now.hall.now pass.old number None None [] }
    ensures { Has on.now.hall.now pass.new number None None [] }
{
    let ticket = on.begin(pass, number)?;
    let published = publish(on, pass, &ticket, wide, number);
    on.end(pass, ticket, number);
    published
}

/// The wide configuration follows that of the request, or the plain one.
pub fn publish<R: Wait>(
    on: &On<'_, R>,
    pass: &mut Player,
    ticket: &Ticket<Set>,
    wide: bool,
    number: u32,
) -> Result<(), Refused>
    requires { Runs on.now.hall.now pass.old number ticket.now None }
    ensures { Runs on.now.hall.now pass.new number ticket.now None }
{
    let origin = origin_after(on.alloc, ticket, wide)?;
    let mut draft = draft_of(on, pass, ticket, wide, number)?;
    match open(on, pass, ticket, &mut draft, number) {
        Ok(()) => on.publish(pass, ticket, draft, origin, number),
        Err(key) => {
            on.give_up(pass, ticket, draft, number);
            Err(Refused::Closed(key))
        }
    }
}

/// A draft of the first pass, of the wide configuration, is opened, and given up.
pub fn open_and_give_up<R: Wait>(
    on: &On<'_, R>,
    pass: &mut Player,
    ticket: &Ticket<Set>,
) -> Result<(), Refused>
    requires { Runs on.now.hall.now pass.old 0 ticket.now None }
    ensures { Runs on.now.hall.now pass.new 0 ticket.now None }
{
    let mut draft = draft_of(on, pass, ticket, true, 0)?;
    let opened = open(on, pass, ticket, &mut draft, 0);
    on.give_up(pass, ticket, draft, 0);
    match opened {
        Ok(()) => Ok(()),
        Err(key) => Err(Refused::Closed(key)),
    }
}
