//! What is done at a place.
ghost use Rattle.std.specs.Prelude.{◌≡◌, [], ◌≤◌, ◌<◌, ◌+◌, ◌-◌, ◌&&◌, ◌++◌, ◌∷◌, ℕ, not, List, length, take, false, IfOk, OnOk, MatchOption};
ghost use Rattle.cd_match.specs.Holds.{holds};
ghost use Rattle.cd_routes.specs.declared.outcome.Outcome.TheVariants as outcome;
ghost use Rattle.cd_routes.specs.Running.{Rest, bare_answer, handled, nothing_left, is_taken, with_group};
ghost use Rattle.cd_chain.specs.declared.place.Place.{Place as PlaceOf};
ghost use Rattle.cd_chain.specs.declared.place.Frame.TheVariants.{Catch};
ghost use Rattle.cd_chain.specs.Indexes.{AreSound};
ghost use Rattle.cd_chain.specs.Places.{at, one_of, ended, meanings, place_does, route_does, returning};
ghost use Rattle.cd_chain.specs.Steps.{steps_at, steps_of, no_steps, counts, place_steps, returning_steps, frames_steps, progress_steps};
ghost use Rattle.cd_chain.specs.Frames.{told, unwound};

use crate::index::Index;
use crate::place::{ErrorRoutes, Frame, Place};
use crate::progress::{Ended, Progress};
use crate::skipping::skip;
use cd_fill::Scene;
use cd_handlers::{Done, Handler, deed_in, usual_status};
use cd_match::{Sets, is_listed};
use cd_text::{List, NoMemory, Text};
use cd_wire::{Answer, Field, Lent};
use std::alloc::Global;
use std::mem::replace;

/// An answer without a body.
pub(crate) fn empty_answer<'r>(status: u16, fields: List<Field<'r>>) -> Answer<'r>
    ensures { result ≡ record { status = status; fields = fields.entry; body = []; close = false } }
{
    Answer {
        status,
        fields,
        body: Lent::shared(b""),
        close: false,
    }
}

/// An answer without a body, with the fields that it is to have in the scene.
pub(crate) fn bare_answer<'r>(alloc: Global, status: u16, scene: &mut Scene<'r>) -> Answer<'r>
    ensures { result ≡ bare_answer status scene.old }
{
    let fields = replace(&mut scene.response, List::new(alloc));
    empty_answer(status, fields)
}

#[tactic(auto, unfolding(cd_routes::specs::Running::nothing_left))]
fn nothing_left<'r>(alloc: Global, scene: &mut Scene<'r>) -> Answer<'r>
    ensures { outcome.Answered result ≡ nothing_left scene.old }
{
    let status = usual_status(&scene.error);
    bare_answer(alloc, status, scene)
}

fn is_taken(group: &Option<Text>, scene: &Scene<'_>) -> bool
    ensures { result ≡ is_taken group.now scene.now }
{
    match group {
        None => false,
        Some(group) => is_listed(scene.groups.as_slice(), group.as_str().as_bytes()),
    }
}

fn enters(
    alloc: Global,
    matching: &Sets,
    group: &Option<Text>,
    scene: &Scene<'_>,
) -> Result<bool, NoMemory>
    ensures { IfOk result (λ answer. answer ≡ (holds matching.now scene.now && not (is_taken group.now scene.now))) }
{
    if !matching.holds(alloc, scene)? {
        return Ok(false);
    }
    Ok(!is_taken(group, scene))
}

fn take_group(alloc: Global, group: &Option<Text>, scene: &mut Scene<'_>) -> Result<(), NoMemory>
    ensures { IfOk result (λ _. scene.new ≡ with_group group.now scene.old) }
{
    if let Some(group) = group {
        let group = group.copy(alloc)?;
        scene.groups.push(group)?;
    }
    Ok(())
}

// A number of an earlier place, or the end.
#[tactic(auto, using(crate::proofs::Laid::laid_earlier, crate::proofs::Laid::laid_later))]
fn earlier(next: usize, n: usize) -> usize
    requires { 0 < n }
    ensures less { result < n }
    ensures meaning { (places : List PlaceOf) → n ≤ length places → at places result ≡ one_of (meanings (take (n - 1) places)) next }
    ensures steps { (places : List PlaceOf) → n ≤ length places → steps_at places result ≡ steps_of (counts (take (n - 1) places)) next }
{
    if next < n { next } else { 0 }
}

// The place of a number; none, where nothing is left.
#[tactic(auto, using(crate::proofs::Numbers::place_is, crate::proofs::Numbers::at_nothing, crate::proofs::Numbers::at_zero, crate::proofs::Numbers::steps_is, crate::proofs::Numbers::steps_nothing, crate::proofs::Numbers::steps_zero))]
fn place_at(places: &[Place], n: usize) -> Option<&Place>
    ensures meaning { MatchOption result (at places.now n ≡ ended)
        (λ place. (0 < n) × (n ≤ length places.now) × (at places.now n ≡ place_does (meanings (take (n - 1) places.now)) place.now)) }
    ensures steps { MatchOption result (steps_at places.now n ≡ no_steps)
        (λ place. steps_at places.now n ≡ place_steps (counts (take (n - 1) places.now)) place.now) }
{
    if n == 0 || n > places.len() {
        return None;
    }
    Some(&places[n - 1])
}

// A handler, and then what is at a place.
#[tactic(auto, using(crate::proofs::Frames::unwound_push, crate::proofs::Frames::steps_push), unfolding(cd_routes::specs::Running::with_changes))]
fn handle<'r>(
    alloc: Global,
    handler: &'r Handler,
    next: usize,
    scene: &mut Scene<'r>,
    frames: &mut List<Frame<'r>>,
) -> Result<Progress<'r>, NoMemory>
    ensures meaning { IfOk result (λ p. (places : List PlaceOf) (returns : List ℕ)
        → unwound places frames.new (told places p returns scene.new) ≡ unwound places frames.old (handled handler.now (at places next (returning places returns)) scene.old)) }
    ensures less { IfOk result (λ p. (places : List PlaceOf) (returns : List ℕ)
        → progress_steps places p returns + frames_steps places frames.new ≤ steps_at places next (returning_steps places returns) + frames_steps places frames.old) }
{
    match deed_in(alloc, handler, scene)? {
        Done::Goes => Ok(Progress::Goes(next)),
        Done::Leaves(changes) => {
            frames.push(Frame::Changes(changes))?;
            Ok(Progress::Goes(next))
        }
        Done::Answered(answer) => Ok(Progress::Ends(Ended::Answered(answer))),
        Done::Failed(status, message) => Ok(Progress::Ends(Ended::Failed(status, message))),
    }
}

// A route goes on where it is entered, or else at what follows it. Where it is entered its group is taken.
fn choose(
    alloc: Global,
    matching: &Sets,
    group: &Option<Text>,
    inside: usize,
    otherwise: usize,
    scene: &mut Scene<'_>,
) -> Result<usize, NoMemory>
    ensures meaning { IfOk result (λ next. (places : List PlaceOf) (back : Rest)
        → at places next back scene.new ≡ route_does matching.now group.now (at places inside back) (at places otherwise back) scene.old) }
    ensures less { IfOk result (λ next. (places : List PlaceOf) (back : ℕ)
        → steps_at places next back ≤ steps_at places inside back + steps_at places otherwise back) }
{
    if enters(alloc, matching, group, scene)? {
        take_group(alloc, group, scene)?;
        return Ok(inside);
    }
    Ok(otherwise)
}

// Goes on from a place over routes, one after another, to the first place that is none. While no route is entered only the
// number changes.
#[tactic(auto, using(crate::proofs::Goings::route_goes, crate::proofs::Goings::route_steps))]
fn over_routes(
    alloc: Global,
    places: &[Place],
    indexes: &[Index],
    start: usize,
    scene: &mut Scene<'_>,
) -> Result<usize, NoMemory>
    requires { AreSound places.now indexes.now }
    ensures meaning { IfOk result (λ next. (back : Rest) → at places.now next back scene.new ≡ at places.now start back scene.old) }
    ensures less { IfOk result (λ next. (back : ℕ) → steps_at places.now next back ≤ steps_at places.now start back) }
{
    let mut n = skip(places, indexes, start, scene);
    while let Some(
        Place::Route {
            matching,
            group,
            inside,
            otherwise,
            ..
        },
    ) = place_at(places, n)
    {
        let inside = earlier(*inside, n);
        let otherwise = earlier(*otherwise, n);
        let next = choose(alloc, matching, group, inside, otherwise, scene)?;
        n = skip(places, indexes, next, scene);
    }
    Ok(n)
}

// The errors of a subroute wait for a failure, with the returns as they are.
fn wait(
    alloc: Global,
    begin: usize,
    returns: &List<usize>,
    frames: &mut List<Frame<'_>>,
) -> Result<(), NoMemory>
    ensures { OnOk result (frames.new ≡ frames.old ++ Catch (record { begin = begin; returns = returns.now }) ∷ []) }
{
    let kept = Vec::from_slice(alloc, returns.as_slice())?;
    frames.push(Frame::Catch(ErrorRoutes {
        begin,
        returns: List::from_vec(kept),
    }))?;
    Ok(())
}

// Goes on where the last named route returns to.
fn go_back(returns: &mut List<usize>) -> Option<usize>
    ensures { MatchOption result (returns.old ≡ []) (λ next. returns.old ≡ returns.new ++ next ∷ []) }
{
    returns.pop()
}

fn end<'r>(alloc: Global, scene: &mut Scene<'r>) -> Progress<'r>
    ensures meaning { (places : List PlaceOf) (returns : List ℕ) → told places result returns scene.new ≡ nothing_left scene.old }
    ensures less { (places : List PlaceOf) (returns : List ℕ) → progress_steps places result returns ≡ 0 }
{
    Progress::Ends(Ended::Answered(nothing_left(alloc, scene)))
}

/// Does what is to be done at a place.
#[tactic(auto, using(crate::proofs::Goings::handler_goes, crate::proofs::Goings::route_goes, crate::proofs::Goings::try_goes, crate::proofs::Goings::invoke_goes, crate::proofs::Goings::return_goes, crate::proofs::Goings::return_ends, crate::proofs::Goings::handler_steps, crate::proofs::Goings::route_steps, crate::proofs::Goings::try_steps, crate::proofs::Goings::invoke_steps, crate::proofs::Goings::return_steps, crate::proofs::Goings::return_takes))]
pub(crate) fn advance<'r>(
    alloc: Global,
    places: &'r [Place],
    indexes: &[Index],
    n: usize,
    scene: &mut Scene<'r>,
    returns: &mut List<usize>,
    frames: &mut List<Frame<'r>>,
) -> Result<Progress<'r>, NoMemory>
    requires { AreSound places.now indexes.now }
    ensures meaning { IfOk result (λ p. unwound places.now frames.new (told places.now p returns.new scene.new)
        ≡ unwound places.now frames.old (at places.now n (returning places.now returns.old) scene.old)) }
    ensures less { IfOk result (λ p. progress_steps places.now p returns.new + frames_steps places.now frames.new
        < steps_at places.now n (returning_steps places.now returns.old) + frames_steps places.now frames.old) }
{
    match place_at(places, n) {
        None => Ok(end(alloc, scene)),
        Some(Place::Handler(handler, next)) => {
            let next = earlier(*next, n);
            let progress = handle(alloc, handler, next, scene, frames)?;
            Ok(progress)
        }
        Some(
            Place::Route {
                matching,
                group,
                inside,
                otherwise,
                ..
            },
        ) => {
            let inside = earlier(*inside, n);
            let otherwise = earlier(*otherwise, n);
            let chosen = choose(alloc, matching, group, inside, otherwise, scene)?;
            let next = over_routes(alloc, places, indexes, chosen, scene)?;
            Ok(Progress::Goes(next))
        }
        Some(Place::Try(first, errors)) => {
            let first = earlier(*first, n);
            let errors = earlier(*errors, n);
            wait(alloc, errors, returns, frames)?;
            Ok(Progress::Goes(first))
        }
        Some(Place::Invoke(inside, next)) => {
            let inside = earlier(*inside, n);
            let next = earlier(*next, n);
            returns.push(next)?;
            Ok(Progress::Goes(inside))
        }
        Some(Place::Return) => match go_back(returns) {
            None => Ok(end(alloc, scene)),
            Some(next) => Ok(Progress::Goes(next)),
        },
    }
}
