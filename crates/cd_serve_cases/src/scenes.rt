// What happens in a hall of two passes. Each scene leaves both with no ticket, no draft and no duty.
ghost use Rattle.std.specs.Prelude.{[], None};
ghost use Rattle.cd_pair.specs.Pairs.{AreIdle};
ghost use Rattle.cd_pair.specs.Passes.{Has, Runs};

use crate::asking::{Asked, ask, change, change_times};
use crate::drafting::{attempt_of, begin_with_first, make_and_open};
use crate::plans::{On, Pair, Set};
use cd_hall::Ticket;
use cd_pair::{Ended, Refused, Stage, close_hall, open_hall, origin_after};
use std::alloc::Global;
use std::sync::Wait;

#[derive(Clone, Copy, Debug, PartialEq, Eq)]
pub enum Scene {
    /// Twice another pass changes the configuration between the beginning of a request and its attempt. The third request makes
    /// its change.
    SupersededTwice,
    /// The host is halted after a draft was opened and before it is published. The attempt of the same request comes too late as
    /// well, and nobody answers the next request.
    Halted,
    /// A request runs on while 1,023 configurations follow its own. It hinders the next one, until it ends.
    StillInUse,
    /// The address of the other configuration can't be opened. Then it can, and the first one follows again.
    CannotOpen,
}

/// What came of three requests, in their order.
#[derive(Drop)]
pub struct Shown {
    pub first: Asked,
    pub second: Asked,
    pub third: Asked,
}

impl Scene {
    /// Which opening fails in the scene, counted from 0.
    fn fails(self) -> Option<u64> {
        if self == Scene::CannotOpen {
            Some(1)
        } else {
            None
        }
    }
}

/// Two passes of a hall play the scene, after the second one has let the first configuration follow. The hall is halted and closed.
pub fn meet<R: Wait>(rt: &R, alloc: Global, scene: Scene) -> Result<(Shown, Ended), Refused> {
    let (hall, mut pair, places) = open_hall(alloc, scene.fails())?;
    let played = play(
        &Stage {
            rt,
            alloc,
            hall: &hall,
        },
        &mut pair,
        scene,
    );
    let ended = close_hall(rt, alloc, hall, pair, places);
    Ok((played?, ended))
}

fn play<R: Wait>(on: &On<'_, R>, pair: &mut Pair, scene: Scene) -> Result<Shown, Refused>
    requires { AreIdle on.now.hall.now pair.old }
    ensures { AreIdle on.now.hall.now pair.new }
{
    begin_with_first(on, &mut pair.two)?;
    match scene {
        Scene::SupersededTwice => superseded_twice(on, pair),
        Scene::Halted => halted(on, pair),
        Scene::StillInUse => still_in_use(on, pair),
        Scene::CannotOpen => cannot_open(on, pair),
    }
}

fn superseded_twice<R: Wait>(on: &On<'_, R>, pair: &mut Pair) -> Result<Shown, Refused>
    requires { AreIdle on.now.hall.now pair.old }
    ensures { AreIdle on.now.hall.now pair.new }
{
    let first = overtaken(on, pair)?;
    let second = overtaken(on, pair)?;
    let third = change(on, &mut pair.one, true, 0)?;
    Ok(Shown {
        first,
        second,
        third,
    })
}

// The second pass changes the configuration between the beginning of a request of the first pass and its attempt.
fn overtaken<R: Wait>(on: &On<'_, R>, pair: &mut Pair) -> Result<Asked, Refused>
    requires { AreIdle on.now.hall.now pair.old }
    ensures { AreIdle on.now.hall.now pair.new }
{
    let ticket = on.begin(&mut pair.one, 0)?;
    let changed = change(on, &mut pair.two, false, 1);
    let asked = ask(on, &mut pair.one, &ticket, true, 0);
    on.end(&mut pair.one, ticket, 0);
    changed?;
    Ok(asked)
}

fn halted<R: Wait>(on: &On<'_, R>, pair: &mut Pair) -> Result<Shown, Refused>
    requires { AreIdle on.now.hall.now pair.old }
    ensures { AreIdle on.now.hall.now pair.new }
{
    let ticket = on.begin(&mut pair.two, 1)?;
    let first = halted_before_publishing(on, pair, &ticket);
    let second = ask(on, &mut pair.two, &ticket, true, 1);
    on.end(&mut pair.two, ticket, 1);
    let third = change(on, &mut pair.two, true, 1);
    let again = on.halt(&mut pair.one, 0);
    let (Ok(first), Ok(third), None) = (first, third, again) else {
        return Err(Refused::Halted);
    };
    Ok(Shown {
        first,
        second,
        third,
    })
}

// The first pass halts the host between the opening of a draft of the second pass and its publishing.
fn halted_before_publishing<R: Wait>(
    on: &On<'_, R>,
    pair: &mut Pair,
    ticket: &Ticket<Set>,
) -> Result<Asked, Refused>
    requires one { Has on.now.hall.now pair.old.one 0 None None [] }
    requires two { Runs on.now.hall.now pair.old.two 1 ticket.now None }
    ensures one { Has on.now.hall.now pair.new.one 0 None None [] }
    ensures two { Runs on.now.hall.now pair.new.two 1 ticket.now None }
{
    let serial = ticket.serial();
    let origin = origin_after(on.alloc, ticket, true)?;
    let draft = make_and_open(on, &mut pair.two, ticket, true, 1)?;
    let halted = on.halt(&mut pair.one, 0);
    let attempt = attempt_of(on.publish(&mut pair.two, ticket, draft, origin, 1));
    if halted.is_none() {
        return Err(Refused::Halted);
    }
    Ok(Asked {
        serial,
        attempt: Some(attempt),
    })
}

fn still_in_use<R: Wait>(on: &On<'_, R>, pair: &mut Pair) -> Result<Shown, Refused>
    requires { AreIdle on.now.hall.now pair.old }
    ensures { AreIdle on.now.hall.now pair.new }
{
    let ticket = on.begin(&mut pair.one, 0)?;
    let followed = change_times(on, &mut pair.two, 1_022);
    let first = change(on, &mut pair.two, false, 1);
    let second = change(on, &mut pair.two, true, 1);
    on.end(&mut pair.one, ticket, 0);
    followed?;
    let third = change(on, &mut pair.two, true, 1)?;
    Ok(Shown {
        first: first?,
        second: second?,
        third,
    })
}

fn cannot_open<R: Wait>(on: &On<'_, R>, pair: &mut Pair) -> Result<Shown, Refused>
    requires { AreIdle on.now.hall.now pair.old }
    ensures { AreIdle on.now.hall.now pair.new }
{
    let first = change(on, &mut pair.one, true, 0)?;
    let second = change(on, &mut pair.one, true, 0)?;
    let third = change(on, &mut pair.one, false, 0)?;
    Ok(Shown {
        first,
        second,
        third,
    })
}
