// What a hall came to is printed, as a line.
use crate::asking::Asked;
use crate::scenes::{Scene, Shown};
use cd_fixed::tell_calls;
use cd_pair::Ended;
use cd_serve::{Attempt, ChangeFault};
use std::alloc::Global;
use std::io;

/// Prints what the scene came to: its three requests, how many configurations were published, and the calls of the fixtures.
pub fn tell(
    rt: &impl Print,
    alloc: Global,
    scene: Scene,
    shown: &Shown,
    ended: &Ended,
) -> io::Result<()> {
    let published = ended.published;
    tell_scene(rt, scene)?;
    tell_asked(rt, alloc, &shown.first)?;
    print!(rt; ",")?;
    tell_asked(rt, alloc, &shown.second)?;
    print!(rt; ",")?;
    tell_asked(rt, alloc, &shown.third)?;
    print!(rt; "; published {published};")?;
    tell_calls(rt, &ended.fixtures)
}

// What the scene shows.
fn tell_scene(rt: &impl Print, scene: Scene) -> io::Result<()> {
    match scene {
        Scene::SupersededTwice => print!(rt; "superseded twice:"),
        Scene::Halted => print!(rt; "halted before the publishing:"),
        Scene::StillInUse => print!(rt; "still in use:"),
        Scene::CannotOpen => print!(rt; "can't be opened:"),
    }
}

// Under which serial the request began, and what came of it.
fn tell_asked(rt: &impl Print, alloc: Global, asked: &Asked) -> io::Result<()> {
    let serial = asked.serial;
    print!(rt; " under {serial} ")?;
    match &asked.attempt {
        Some(Attempt::Published) => print!(rt; "published"),
        Some(Attempt::Superseded) => print!(rt; "superseded"),
        Some(Attempt::Refused(fault)) => tell_fault(rt, alloc, fault),
        Some(Attempt::Lacking) => print!(rt; "out of memory"),
        None => print!(rt; "nobody answers"),
    }
}

// The status of the answer, and its body, which is a line.
fn tell_fault(rt: &impl Print, alloc: Global, fault: &ChangeFault) -> io::Result<()> {
    let Ok(answer) = fault.answer(alloc) else {
        return print!(rt; "out of memory");
    };
    let status = answer.status;
    let Ok(body) = str::from_utf8(answer.body.as_slice()) else {
        return print!(rt; "{status} and no text");
    };
    match body.strip_suffix('\n') {
        Some(words) => print!(rt; "{status} {words}"),
        None => print!(rt; "{status} and no line"),
    }
}
