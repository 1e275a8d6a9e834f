// What happens in a hall of two passes. Each scene ends with no ticket, no draft and no duty, and names what it shows.
ghost use Rattle.std.specs.Prelude.{None};
ghost use Rattle.cd_gate.specs.Passes.{view};
ghost use Rattle.cd_hall.specs.Caches.{IsCacheOf};
ghost use Rattle.cd_pair.specs.Pairs.{AreIdle};
ghost use Rattle.cd_pair.specs.Passes.{Runs};

use crate::caching::{Asked, ask_now};
use crate::changes::{open_and_give_up, publish, reload, reload_times};
use crate::plans::{On, Pair, Set};
use cd_hall::{Cache, Ticket};
use cd_legal::MAX_UNRETIRED;
use cd_outside::Key;
use cd_pair::{Ended, Refused, Stage, close_hall, open_hall};
use std::alloc::Global;
use std::sync::Wait;

#[derive(Clone, Copy, Debug, PartialEq, Eq)]
pub enum Scene {
    /// A request of the first configuration runs on, until so many follow that it hinders the next. It names the serial.
    InUse,
    /// Two requests of one configuration ask for a change. It names the serial that the second one comes too late for.
    Superseded,
    /// Two requests run under one configuration, and the one that lets the next configuration follow ends last. It names the duties.
    ChangerEndsLast,
    /// It ends first.
    ChangerEndsFirst,
    /// The host is halted while a request runs, and once more. It names how many duties came when the request ended.
    Halted,
    /// The host is halted while no request runs, and then a request begins and ends. It names the duties.
    HaltedAtRest,
    /// The wide configuration is to be the first, and the opening of this number fails, from 0. It names the key.
    Fails(u64),
    /// The wide configuration is the first.
    Opens,
    /// A draft of the wide configuration is given up once all its keys are open.
    GivenUp,
    /// The wide configuration follows the plain one, and then the plain one follows it.
    Overlaps,
    /// A pass keeps the configuration of its last request, while three configurations follow. It names its requests.
    Cached,
}

/// What a scene names.
#[derive(Drop)]
pub enum Named {
    Number(u32),
    /// How many duties came first, and how many then; and the serial under which the last request began.
    Duties { first: u32, second: u32, last: u32 },
    Asked([Asked; 5]),
    Key(Key),
    Nothing,
}

impl Scene {
    /// Which opening fails in the scene.
    fn fails(self) -> Option<u64> {
        match self {
            Scene::Fails(number) => Some(number),
            _ => None,
        }
    }
}

/// Two passes of a hall play the scene, and the hall is halted and closed.
pub fn meet<R: Wait>(rt: &R, alloc: Global, scene: Scene) -> Result<(Named, Ended), Refused> {
    let (hall, mut pair, places) = open_hall(alloc, scene.fails())?;
    let played = play(
        &Stage {
            rt,
            alloc,
            hall: &hall,
        },
        &mut pair,
        scene,
    );
    let ended = close_hall(rt, alloc, hall, pair, places);
    Ok((played?, ended))
}

fn play<R: Wait>(on: &On<'_, R>, pair: &mut Pair, scene: Scene) -> Result<Named, Refused>
    requires { AreIdle on.now.hall.now pair.old }
    ensures { AreIdle on.now.hall.now pair.new }
{
    match scene {
        Scene::InUse => in_use(on, pair),
        Scene::Superseded => superseded(on, pair),
        Scene::ChangerEndsLast => both_end(on, pair, false),
        Scene::ChangerEndsFirst => both_end(on, pair, true),
        Scene::Halted => halted(on, pair),
        Scene::HaltedAtRest => halted_at_rest(on, pair),
        Scene::Fails(_) => opens(on, pair),
        Scene::Opens => opens(on, pair),
        Scene::GivenUp => given_up(on, pair),
        Scene::Overlaps => overlaps(on, pair),
        Scene::Cached => cached(on, pair),
    }
}

fn in_use<R: Wait>(on: &On<'_, R>, pair: &mut Pair) -> Result<Named, Refused>
    requires { AreIdle on.now.hall.now pair.old }
    ensures { AreIdle on.now.hall.now pair.new }
{
    reload(on, &mut pair.one, false, 0)?;
    let ticket = on.begin(&mut pair.two, 1)?;
    let followed = reload_times(on, &mut pair.one, MAX_UNRETIRED - 1);
    let refused = serial_in(reload(on, &mut pair.one, false, 0));
    on.end(&mut pair.two, ticket, 1);
    followed?;
    reload(on, &mut pair.one, false, 0)?;
    Ok(Named::Number(refused))
}

fn superseded<R: Wait>(on: &On<'_, R>, pair: &mut Pair) -> Result<Named, Refused>
    requires { AreIdle on.now.hall.now pair.old }
    ensures { AreIdle on.now.hall.now pair.new }
{
    reload(on, &mut pair.one, false, 0)?;
    let ticket = on.begin(&mut pair.two, 1)?;
    let followed = reload(on, &mut pair.one, false, 0);
    let refused = serial_in(publish(on, &mut pair.two, &ticket, false, 1));
    on.end(&mut pair.two, ticket, 1);
    followed?;
    Ok(Named::Number(refused))
}

fn halted<R: Wait>(on: &On<'_, R>, pair: &mut Pair) -> Result<Named, Refused>
    requires { AreIdle on.now.hall.now pair.old }
    ensures { AreIdle on.now.hall.now pair.new }
{
    reload(on, &mut pair.one, false, 0)?;
    let ticket = on.begin(&mut pair.two, 1)?;
    let first = on.halt(&mut pair.one, 0);
    let again = on.halt(&mut pair.one, 0);
    let duties = on.end(&mut pair.two, ticket, 1);
    match (first, again) {
        (Some(0), None) => Ok(Named::Number(duties)),
        _ => Err(Refused::Halted),
    }
}

// Two requests run under one configuration, the next one follows, and they end: first that of the pass which let it follow, or last.
fn both_end<R: Wait>(on: &On<'_, R>, pair: &mut Pair, changer_first: bool) -> Result<Named, Refused>
    requires { AreIdle on.now.hall.now pair.old }
    ensures { AreIdle on.now.hall.now pair.new }
{
    reload(on, &mut pair.one, false, 0)?;
    let other = on.begin(&mut pair.two, 1)?;
    let Ok(changer) = on.begin(&mut pair.one, 0) else {
        on.end(&mut pair.two, other, 1);
        return Err(Refused::NoMemory);
    };
    let followed = publish(on, &mut pair.one, &changer, false, 0);
    let (first, second) = end_both(on, pair, changer, other, changer_first);
    followed?;
    let last = on.begin(&mut pair.two, 1)?;
    let serial = last.serial();
    on.end(&mut pair.two, last, 1);
    Ok(Named::Duties {
        first,
        second,
        last: serial,
    })
}

// The requests of both passes end, that of the first pass first or last. It says how many duties came at each end.
fn end_both<R: Wait>(
    on: &On<'_, R>,
    pair: &mut Pair,
    changer: Ticket<Set>,
    other: Ticket<Set>,
    changer_first: bool,
) -> (u32, u32)
    requires one { Runs on.now.hall.now pair.old.one 0 changer None }
    requires two { Runs on.now.hall.now pair.old.two 1 other None }
    ensures { AreIdle on.now.hall.now pair.new }
{
    if changer_first {
        let first = on.end(&mut pair.one, changer, 0);
        let second = on.end(&mut pair.two, other, 1);
        return (first, second);
    }
    let first = on.end(&mut pair.two, other, 1);
    let second = on.end(&mut pair.one, changer, 0);
    (first, second)
}

fn halted_at_rest<R: Wait>(on: &On<'_, R>, pair: &mut Pair) -> Result<Named, Refused>
    requires { AreIdle on.now.hall.now pair.old }
    ensures { AreIdle on.now.hall.now pair.new }
{
    reload(on, &mut pair.one, false, 0)?;
    let halted = on.halt(&mut pair.one, 0);
    let ticket = on.begin(&mut pair.one, 0)?;
    let last = ticket.serial();
    let second = on.end(&mut pair.one, ticket, 0);
    match halted {
        Some(first) => Ok(Named::Duties {
            first,
            second,
            last,
        }),
        None => Err(Refused::Halted),
    }
}

fn opens<R: Wait>(on: &On<'_, R>, pair: &mut Pair) -> Result<Named, Refused>
    requires { AreIdle on.now.hall.now pair.old }
    ensures { AreIdle on.now.hall.now pair.new }
{
    match reload(on, &mut pair.one, true, 0) {
        Ok(()) => Ok(Named::Nothing),
        Err(Refused::Closed(key)) => Ok(Named::Key(key)),
        Err(refused) => Err(refused),
    }
}

fn given_up<R: Wait>(on: &On<'_, R>, pair: &mut Pair) -> Result<Named, Refused>
    requires { AreIdle on.now.hall.now pair.old }
    ensures { AreIdle on.now.hall.now pair.new }
{
    let ticket = on.begin(&mut pair.one, 0)?;
    let given_up = open_and_give_up(on, &mut pair.one, &ticket);
    on.end(&mut pair.one, ticket, 0);
    given_up?;
    Ok(Named::Nothing)
}

fn overlaps<R: Wait>(on: &On<'_, R>, pair: &mut Pair) -> Result<Named, Refused>
    requires { AreIdle on.now.hall.now pair.old }
    ensures { AreIdle on.now.hall.now pair.new }
{
    reload(on, &mut pair.one, false, 0)?;
    reload(on, &mut pair.one, true, 0)?;
    reload(on, &mut pair.one, false, 0)?;
    Ok(Named::Nothing)
}

fn cached<R: Wait>(on: &On<'_, R>, pair: &mut Pair) -> Result<Named, Refused>
    requires { AreIdle on.now.hall.now pair.old }
    ensures { AreIdle on.now.hall.now pair.new }
{
    let mut cache = Cache::empty();
    let asked = ask_by_cache(on, pair, &mut cache);
    cache.end();
    Ok(Named::Asked(asked?))
}

// The second pass asks twice before any configuration follows, then under the first one, and twice under the third one.
fn ask_by_cache<R: Wait>(
    on: &On<'_, R>,
    pair: &mut Pair,
    cache: &mut Cache<Set>,
) -> Result<[Asked; 5], Refused>
    requires idle { AreIdle on.now.hall.now pair.old }
    requires cache { IsCacheOf (view pair.old.two) cache.old }
    ensures { AreIdle on.now.hall.now pair.new }
{
    let first = ask_now(on, &mut pair.two, cache, 1)?;
    let second = ask_now(on, &mut pair.two, cache, 1)?;
    reload(on, &mut pair.one, false, 0)?;
    let third = ask_now(on, &mut pair.two, cache, 1)?;
    reload_times(on, &mut pair.one, 2)?;
    let fourth = ask_now(on, &mut pair.two, cache, 1)?;
    let fifth = ask_now(on, &mut pair.two, cache, 1)?;
    Ok([first, second, third, fourth, fifth])
}

// The serial that a refusal names, or 0.
fn serial_in(refused: Result<(), Refused>) -> u32 {
    match refused {
        Err(Refused::Superseded(serial)) => serial,
        Err(Refused::Full(serial)) => serial,
        _ => 0,
    }
}
