ghost use Rattle.std.specs.Prelude.{◌≡◌, ◌≤◌, ◌∷◌, [], ◌++◌, MatchOption, if◌then◌else◌};
ghost use Rattle.cd_routes.specs.Running.{Named, nothing_left};
ghost use Rattle.cd_routes.specs.Work.{Weights, done, weight};

use crate::outcome::Outcome;
use crate::route::{Route, Step};
use cd_fill::Scene;
use cd_handlers::FilledChanges;

/// Something that is still to be done.
#[derive(Clone, Copy)]
pub enum Work<'a> {
    Routes(&'a [Route]),
    Steps(&'a [Step]),
}

/// How far a request has come. What is to be done next is the last item of the work.
#[derive(Drop)]
pub enum Progress<'a, 'r> {
    Goes(Vec<Work<'a>>, Scene<'r>),
    /// It goes on, and these changes are left for the answer.
    Leaves(FilledChanges<'a>, Vec<Work<'a>>, Scene<'r>),
    Ends(Outcome<'r>),
}

/// What follows a route: nothing, where the route is terminal.
#[tactic(auto, unfolding(crate::specs::Work::done, crate::specs::Work::weight))]
pub fn behind<'a>(terminal: bool, rest: Vec<Work<'a>>) -> Vec<Work<'a>>
    ensures meaning { (named : Named) → done named result.items ≡ (if terminal then nothing_left else done named rest.entry.items) }
    ensures less { (w : Weights) → weight w result.items ≤ weight w rest.entry.items }
{
    let mut rest = rest;
    if terminal {
        rest.clear();
    }
    rest
}

/// The first of some routes or steps, and the others.
pub fn first_of<T>(items: &[T]) -> Option<(&T, &[T])>
    ensures { MatchOption result (items.now ≡ []) (λ parts. items.now ≡ parts.0.now ∷ parts.1.now) }
{
    match items {
        [] => None,
        [first, others @ ..] => Some((first, others)),
    }
}

/// Takes what is to be done next.
pub fn take_next<'a>(work: &mut Vec<Work<'a>>) -> Option<Work<'a>>
    ensures { MatchOption result (work.old.items ≡ []) (λ item. work.old.items ≡ work.new.items ++ item ∷ []) }
{
    work.pop()
}
