// Two threads that meet in a hall: what comes of it is the same whatever the order of their turns.
ghost use Rattle.std.specs.Prelude.{◌≡◌, ◌<◌, ◌≤◌, ℕ, [], None, length, slice_index_or};
ghost use Rattle.cd_pair.specs.Passes.{Has};
ghost use Rattle.cd_hall_cases.specs.Passes.{HasServed};

use crate::changes::reload;
use crate::counts::{Counts, count};
use crate::plans::{On, Player, Set};
use cd_fixed::is_true;
use cd_hall::{Closed, Hall, NoHall};
use cd_outside::MemoryFixtures;
use cd_pair::{Refused, Stage};
use cd_text::List;
use std::alloc::Global;
use std::sync::Wait;
use std::thread;
use std::thread::Threads;

/// How many configurations are published: the plain one and the wide one by turns.
const CONFIGURATIONS: u32 = 201;

/// How many requests begin and end meanwhile: so many that they last longer than the configurations and the start of a thread.
const REQUESTS: u32 = 500_000;

/// What came of it.
#[derive(Drop)]
pub struct Met {
    pub published: u32,
    /// The last configuration is the wide one.
    pub wide: bool,
    pub counts: Counts,
}

/// Two passes of a hall serve, each in a thread of its own, and the hall is closed.
pub fn meet_in_threads<R: Threads + Wait + Sync>(rt: &R, alloc: Global) -> Result<Met, Refused> {
    let Ok(fixtures) = MemoryFixtures::new(alloc, List::new(alloc)) else {
        return Err(Refused::NoMemory);
    };
    let (hall, mut passes) = match Hall::<Set, MemoryFixtures>::new(alloc, fixtures, 2) {
        Ok(made) => made,
        Err(NoHall { fixtures }) => {
            drop(fixtures);
            return Err(Refused::NoMemory);
        }
    };
    serve_all(rt, alloc, &hall, &mut passes);
    let Closed {
        fixtures,
        last,
        published,
    } = hall.close(passes);
    let wide = is_true(last.tree());
    drop(last);
    Ok(Met {
        published,
        wide,
        counts: count(&fixtures),
    })
}

// Each pass serves in a thread of its own.
fn serve_all<R: Threads + Wait + Sync>(
    rt: &R,
    alloc: Global,
    hall: &Hall<Set, MemoryFixtures>,
    passes: &mut Vec<Player>,
)
    requires two { length passes.old.items ≡ 2 }
    requires has { (i : ℕ) (d : _) → i < length passes.old.items → Has hall.now (slice_index_or passes.old.items i d) i None None [] }
    ensures length { length passes.new.items ≡ length passes.old.items }
    ensures served { (i : ℕ) (d : _) → i < length passes.old.items → HasServed hall.now (slice_index_or passes.new.items i d) i }
{
    serve_each(rt, alloc, hall, passes.as_mut_slice());
}

fn serve_each<R: Threads + Wait + Sync>(
    rt: &R,
    alloc: Global,
    hall: &Hall<Set, MemoryFixtures>,
    passes: &mut [Player],
)
    requires two { length passes.old ≡ 2 }
    requires has { (i : ℕ) (d : _) → i < length passes.old → Has hall.now (slice_index_or passes.old i d) i None None [] }
    ensures length { length passes.new ≡ length passes.old }
    ensures served { (i : ℕ) (d : _) → i < length passes.old → HasServed hall.now (slice_index_or passes.new i d) i }
{
    thread::for_each_mut(
        rt,
        passes,
        2,
        &|place, pass: &mut Player|
            requires { (place < 2) × Has hall.now pass.now place None None [] }
            ensures { HasServed hall.entry.now pass.exit.now place }
        { serve(rt, alloc, hall, pass, place) },
    );
}

// The pass of number 0 lets configurations follow and halts the host, and that of number 1 begins and ends requests.
fn serve<R: Wait>(
    rt: &R,
    alloc: Global,
    hall: &Hall<Set, MemoryFixtures>,
    pass: &mut Player,
    place: usize,
)
    requires two { place < 2 }
    requires has { Has hall.now pass.old place None None [] }
    ensures { HasServed hall.now pass.new place }
{
    let on = Stage { rt, alloc, hall };
    if place == 0 {
        publish_and_halt(&on, pass);
    } else {
        ask(&on, pass);
    }
}

fn publish_and_halt<R: Wait>(on: &On<'_, R>, pass: &mut Player)
    requires { Has on.now.hall.now pass.old 0 None None [] }
    ensures { HasServed on.now.hall.now pass.new 0 }
{
    let _ = reload_in_turn(on, pass);
    on.halt(pass, 0);
}

// The plain configuration and the wide one follow by turns.
fn reload_in_turn<R: Wait>(on: &On<'_, R>, pass: &mut Player) -> Result<(), Refused>
    requires { Has on.now.hall.now pass.old 0 None None [] }
    ensures { Has on.now.hall.now pass.new 0 None None [] }
{
    for turn in 0..CONFIGURATIONS {
        reload(on, pass, turn % 2 == 1, 0)?;
    }
    Ok(())
}

fn ask<R: Wait>(on: &On<'_, R>, pass: &mut Player)
    requires { Has on.now.hall.now pass.old 1 None None [] }
    ensures { Has on.now.hall.now pass.new 1 None None [] }
{
    for _ in 0..REQUESTS {
        if let Ok(ticket) = on.begin(pass, 1) {
            on.end(pass, ticket, 1);
        }
    }
}
