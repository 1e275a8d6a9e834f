//! A hall of two passes, from its beginning to its end.
ghost use Rattle.std.specs.Prelude.{◌≡◌, ◌≤◌, [], IfOk};
ghost use Rattle.std.specs.Vec.{vec_capacity};
ghost use Rattle.cd_pair.specs.Pairs.{AreIdle};

use crate::stage::{Pair, Refused, Stage, Table};
use cd_fixed::{put_two, take_two};
use cd_gate::Pass;
use cd_hall::{Closed, Hall, NoHall};
use cd_module_set::ModuleSet;
use cd_outside::MemoryFixtures;
use cd_text::List;
use std::alloc::Global;
use std::sync::Wait;

/// The vector in which the passes of a hall were made, without them.
pub struct Places<T> {
    empty: Vec<Pass<T>>,
    ghost none: { empty.items ≡ [] },
    ghost room: { 2 ≤ vec_capacity empty },
}

/// What a hall came to.
#[derive(Drop)]
pub struct Ended {
    /// How many configurations were published.
    pub published: u32,
    pub fixtures: MemoryFixtures,
}

/// A hall at whose board nothing has happened, its two passes, and their places. The opening of this number fails, counted from 0, if
/// one is to fail.
pub fn open_hall<M: ModuleSet>(
    alloc: Global,
    fails: Option<u64>,
) -> Result<(Hall<M, MemoryFixtures>, Pair<Table<M>>, Places<Table<M>>), Refused>
    ensures { IfOk result (λ opened. AreIdle opened.0 opened.1) }
{
    let mut failing = List::new(alloc);
    if let Some(number) = fails {
        failing.push(number)?;
    }
    let fixtures = MemoryFixtures::new(alloc, failing)?;
    match Hall::<M, MemoryFixtures>::new(alloc, fixtures, 2) {
        Ok((hall, passes)) => {
            let (one, two, empty) = take_two(passes);
            Ok((hall, Pair { one, two }, Places { empty }))
        }
        Err(NoHall { fixtures }) => {
            drop(fixtures);
            Err(Refused::NoMemory)
        }
    }
}

/// The host is halted, unless it was, and the passes come together.
pub fn close_hall<R: Wait, M: ModuleSet>(
    rt: &R,
    alloc: Global,
    hall: Hall<M, MemoryFixtures>,
    pair: Pair<Table<M>>,
    places: Places<Table<M>>,
) -> Ended
    requires { AreIdle hall pair }
{
    let Pair { one, two } = pair;
    let Places { empty } = places;
    let mut one = one;
    Stage::halt(
        &Stage {
            rt,
            alloc,
            hall: &hall,
        },
        &mut one,
        0,
    );
    let Closed {
        fixtures,
        last,
        published,
    } = hall.close(put_two(empty, one, two));
    drop(last);
    Ended {
        published,
        fixtures,
    }
}
