// What a hall came to is printed, as a line.
use crate::caching::Asked;
use crate::counts::{Counts, count};
use crate::scenes::{Named, Scene};
use crate::threads::Met;
use cd_fixed::{tell_calls, tell_key};
use cd_outside::MemoryFixtures;
use cd_pair::Ended;
use std::io;

/// Prints what the scene came to: what it names, how many configurations were published, and the calls of the fixtures.
pub fn tell(rt: &impl Print, scene: Scene, named: &Named, ended: &Ended) -> io::Result<()> {
    let published = ended.published;
    tell_scene(rt, scene)?;
    match named {
        Named::Number(number) => {
            print!(rt; ": {number}; published {published}, ")?;
            tell_counts(rt, &ended.fixtures)
        }
        Named::Duties {
            first,
            second,
            last,
        } => {
            print!(rt;
                ": {first} and {second}, the last request under serial: {last}; published {published}, "
            )?;
            tell_counts(rt, &ended.fixtures)
        }
        Named::Asked(requests) => {
            for asked in *requests {
                tell_asked(rt, asked)?;
            }
            print!(rt; "; published {published}, ")?;
            tell_counts(rt, &ended.fixtures)
        }
        Named::Key(key) => {
            tell_key(rt, "", key)?;
            print!(rt; "; published {published};")?;
            tell_calls(rt, &ended.fixtures)
        }
        Named::Nothing => {
            print!(rt; "; published {published};")?;
            tell_calls(rt, &ended.fixtures)
        }
    }
}

// What the scene shows.
fn tell_scene(rt: &impl Print, scene: Scene) -> io::Result<()> {
    match scene {
        Scene::InUse => print!(rt; "still in use, serial"),
        Scene::Superseded => print!(rt; "superseded by serial"),
        Scene::ChangerEndsLast => print!(rt; "the changing request ends last, duties"),
        Scene::ChangerEndsFirst => print!(rt; "the changing request ends first, duties"),
        Scene::Halted => print!(rt; "halted, duties at the last request"),
        Scene::HaltedAtRest => {
            print!(rt; "halted without a request, duties then and at a request after it")
        }
        Scene::Fails(place) => print!(rt; "opening {place} fails, of"),
        Scene::Opens => print!(rt; "no opening fails"),
        Scene::GivenUp => print!(rt; "given up with all its keys"),
        Scene::Overlaps => print!(rt; "plain, wide and plain"),
        Scene::Cached => print!(rt; "requests by a cache, under serials:"),
    }
}

// The serial of a request, and whether its configuration was in the cache or had to be fetched.
fn tell_asked(rt: &impl Print, asked: Asked) -> io::Result<()> {
    let serial = asked.serial;
    if asked.ready {
        print!(rt; " {serial} ready")
    } else {
        print!(rt; " {serial} fetched")
    }
}

/// Prints what came of two threads.
pub fn tell_threads(rt: &impl Print, met: &Met) -> io::Result<()> {
    let published = met.published;
    let wide = met.wide;
    let left = met.counts.opened.wrapping_sub(met.counts.closed);
    let shut = met.counts.shut;
    println!(rt;
        "in two threads; published {published}, the last one wide: {wide}, left open {left}, shut {shut}"
    )
}

fn tell_counts(rt: &impl Print, fixtures: &MemoryFixtures) -> io::Result<()> {
    let Counts {
        opened,
        closed,
        shut,
    } = count(fixtures);
    println!(rt; "opened {opened}, closed {closed}, shut {shut}")
}
