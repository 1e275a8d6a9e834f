//! Routes are laid out as places, the last one first.
ghost use Rattle.std.specs.Prelude.{◌≡◌, ◌≤◌, ◌++◌, ◌∷◌, ℕ, [], length, IfOk, OnOk, get_or, if◌then◌else◌};
ghost use Rattle.cd_handlers.specs.Invoke.{invoked};
ghost use Rattle.cd_routes.specs.Running.{Rest, in_place, run_route, run_routes, run_step, run_steps};
ghost use Rattle.cd_chain.specs.Growing.{Grows};
ghost use Rattle.cd_chain.specs.Indexes.{IsBegun};
ghost use Rattle.cd_chain.specs.Places.{at};
ghost use Rattle.cd_chain.specs.Steps.{steps_at};
ghost use Rattle.cd_chain.specs.Laying.{entered_by, Laid, MayLay};

use crate::index::{Entry, Index};
use crate::keys::note;
use crate::numbering::{put_index, reserve};
use crate::place::Place;
use cd_handlers::Handler;
use cd_routes::{NameList, Route, Step, Subroute};
use cd_text::{List, NoMemory};
use std::alloc::Global;

/// Lists of so many routes have an index.
pub const LEAST_INDEXED: usize = 8;

// Adds a place, and gives its number.
fn add(places: &mut Vec<Place>, place: Place) -> Result<usize, NoMemory>
    ensures number { IfOk result (λ n. n ≡ length places.new.items) }
    ensures items { IfOk result (λ n. places.new.items ≡ places.old.items ++ place ∷ []) }
{
    places.push(place)?;
    Ok(places.len())
}

// What follows the steps of a route: nothing, where it is terminal.
fn after(terminal: bool, rest: usize) -> usize
    ensures value { result ≡ (if terminal then 0 else rest) }
    ensures within { result ≤ rest }
{
    if terminal { 0 } else { rest }
}

// Where the named route of a number is entered.
fn entry(entries: &[usize], n: usize) -> usize
    ensures { result ≡ get_or entries.now n 1 }
{
    match entries.get(n) {
        Some(entry) => *entry,
        None => 1,
    }
}

// A handler that is no `invoke`, which what is at `rest` follows.
#[tactic(auto, using(crate::proofs::Layouts::handler_added, crate::proofs::Layouts::grows_by))]
fn lay_handler(
    places: &mut Vec<Place>,
    names: &NameList,
    entries: &[usize],
    handler: Handler,
    rest: usize,
) -> Result<usize, NoMemory>
    ensures meaning { IfOk result (λ n. (back : Rest)
        → at places.new.items n back ≡ in_place (entered_by places.old.items entries.now names.now) (invoked handler) handler (at places.old.items rest back)) }
    ensures within { IfOk result (λ n. n ≤ length places.new.items) }
    ensures grows { OnOk result (Grows places.old.items places.new.items) }
{
    match handler.invoked() {
        Some(name) => {
            let inside = entry(entries, names.place_of(name));
            let begin = add(places, Place::Invoke(inside, rest))?;
            Ok(begin)
        }
        None => {
            let begin = add(places, Place::Handler(handler, rest))?;
            Ok(begin)
        }
    }
}

/// What is laid out: places, and the indexes of long lists.
#[derive(Drop)]
pub(crate) struct Plan {
    pub places: Vec<Place>,
    pub indexes: Vec<Index>,
}

/// What lays routes out: it has the names of named routes, and where each is entered.
#[derive(Drop)]
pub(crate) struct Compiler<'a> {
    pub alloc: Global,
    pub names: &'a NameList,
    pub entries: &'a [usize],
}

impl<'a> Compiler<'a> {
    /// Lays routes out, which what is at `rest` follows. Gives the place where they begin.
    #[cycle(compiling)]
    pub(crate) fn lay_routes(
        &self,
        plan: &mut Plan,
        routes: List<Route>,
        rest: usize,
    ) -> Result<usize, NoMemory>
        requires { MayLay plan.old.places.items plan.old.indexes.items self.now.entries.now rest }
        ensures { IfOk result (λ n. Laid (run_routes (entered_by plan.old.places.items self.now.entries.now self.now.names.now) routes) plan.old.places.items plan.new.places.items plan.new.indexes.items rest n) }
    {
        if routes.len() < LEAST_INDEXED {
            let begin = self.lay_few(plan, routes, rest)?;
            return Ok(begin);
        }
        let begin = self.lay_many(plan, routes, rest)?;
        Ok(begin)
    }

    // Without an index.
    #[cycle(compiling)]
    fn lay_few(&self, plan: &mut Plan, routes: List<Route>, rest: usize) -> Result<usize, NoMemory>
        requires { MayLay plan.old.places.items plan.old.indexes.items self.now.entries.now rest }
        ensures { IfOk result (λ n. Laid (run_routes (entered_by plan.old.places.items self.now.entries.now self.now.names.now) routes) plan.old.places.items plan.new.places.items plan.new.indexes.items rest n) }
    {
        let mut routes = routes;
        let mut begin = rest;
        while let Some(route) = routes.pop() {
            begin = self.lay_route(plan, route, begin, None)?;
        }
        Ok(begin)
    }

    // With an index, whose number is taken before those of the lists inside.
    #[cycle(compiling)]
    fn lay_many(&self, plan: &mut Plan, routes: List<Route>, rest: usize) -> Result<usize, NoMemory>
        requires { MayLay plan.old.places.items plan.old.indexes.items self.now.entries.now rest }
        ensures { IfOk result (λ n. Laid (run_routes (entered_by plan.old.places.items self.now.entries.now self.now.names.now) routes) plan.old.places.items plan.new.places.items plan.new.indexes.items rest n) }
    {
        let number = reserve(self.alloc, &mut plan.indexes)?;
        let mut index = Index::new(self.alloc, routes.len(), rest)?;
        let mut routes = routes;
        let mut begin = rest;
        while let Some(route) = routes.pop() {
            begin = self.lay_indexed(plan, &mut index, number, route, begin)?;
        }
        put_index(&mut plan.indexes, number, index);
        Ok(begin)
    }

    // Lays out a route of an indexed list, before what is at the index's last position.
    #[cycle(compiling)]
    fn lay_indexed(
        &self,
        plan: &mut Plan,
        index: &mut Index,
        number: usize,
        route: Route,
        rest: usize,
    ) -> Result<usize, NoMemory>
        requires may { MayLay plan.old.places.items plan.old.indexes.items self.now.entries.now rest }
        requires begun { IsBegun plan.old.places.items index.old rest }
        ensures laid { IfOk result (λ n. Laid (run_route (entered_by plan.old.places.items self.now.entries.now self.now.names.now) route) plan.old.places.items plan.new.places.items plan.new.indexes.items rest n) }
        ensures begun { IfOk result (λ n. IsBegun plan.new.places.items index.new n) }
    {
        let position = index.numbers.len();
        note(&mut index.table, position, &route.matching)?;
        let entry = Some(Entry {
            index: number,
            position,
        });
        let begin = self.lay_route(plan, route, rest, entry)?;
        index.numbers.push(begin)?;
        Ok(begin)
    }

    /// Lays one route out. Where it is in an index is kept as it is given.
    #[cycle(compiling)]
    pub(crate) fn lay_route(
        &self,
        plan: &mut Plan,
        route: Route,
        rest: usize,
        entry: Option<Entry>,
    ) -> Result<usize, NoMemory>
        requires { MayLay plan.old.places.items plan.old.indexes.items self.now.entries.now rest }
        ensures laid { IfOk result (λ n. Laid (run_route (entered_by plan.old.places.items self.now.entries.now self.now.names.now) route) plan.old.places.items plan.new.places.items plan.new.indexes.items rest n) }
        ensures falls { IfOk result (λ n. (back : ℕ) → steps_at plan.old.places.items rest back ≤ steps_at plan.new.places.items n back) }
    {
        let Route {
            group,
            matching,
            handle,
            terminal,
        } = route;
        let inside = self.lay_steps(plan, handle, after(terminal, rest))?;
        let begin = add(
            &mut plan.places,
            Place::Route {
                matching,
                group,
                inside,
                otherwise: rest,
                entry,
            },
        )?;
        Ok(begin)
    }

    #[cycle(compiling)]
    fn lay_steps(&self, plan: &mut Plan, steps: List<Step>, rest: usize) -> Result<usize, NoMemory>
        requires { MayLay plan.old.places.items plan.old.indexes.items self.now.entries.now rest }
        ensures { IfOk result (λ n. Laid (run_steps (entered_by plan.old.places.items self.now.entries.now self.now.names.now) steps) plan.old.places.items plan.new.places.items plan.new.indexes.items rest n) }
    {
        let mut steps = steps;
        let mut begin = rest;
        while let Some(step) = steps.pop() {
            begin = self.lay_step(plan, step, begin)?;
        }
        Ok(begin)
    }

    #[cycle(compiling)]
    fn lay_step(&self, plan: &mut Plan, step: Step, rest: usize) -> Result<usize, NoMemory>
        requires { MayLay plan.old.places.items plan.old.indexes.items self.now.entries.now rest }
        ensures { IfOk result (λ n. Laid (run_step (entered_by plan.old.places.items self.now.entries.now self.now.names.now) step) plan.old.places.items plan.new.places.items plan.new.indexes.items rest n) }
    {
        match step {
            Step::Handler(handler) => {
                let begin = lay_handler(&mut plan.places, self.names, self.entries, handler, rest)?;
                Ok(begin)
            }
            Step::Subroute(inside) => {
                let Subroute { routes, errors } = inside;
                let first = self.lay_routes(plan, routes, rest)?;
                match errors {
                    None => Ok(first),
                    Some(errors) => {
                        let second = self.lay_routes(plan, errors, rest)?;
                        let begin = add(&mut plan.places, Place::Try(first, second))?;
                        Ok(begin)
                    }
                }
            }
        }
    }
}
