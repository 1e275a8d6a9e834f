ghost use Rattle.std.specs.Prelude.{◌≡◌, ◌+◌, ◌≤◌, ◌&&◌, [], ◌∷◌, ◌++◌, true, not, IfOk, List, map, option_map, Option, if◌then◌else◌};
ghost use Rattle.cd_match.specs.Holds.{holds};
ghost use Rattle.cd_routes.specs.declared.route.Route.{Route as RouteSettings, out-Route};
ghost use Rattle.cd_routes.specs.declared.route.Subroute.{out-Subroute};
ghost use Rattle.cd_routes.specs.declared.work.Work.TheVariants.{Routes};
ghost use Rattle.cd_handlers.specs.Invoke.{invoked};
ghost use Rattle.cd_routes.specs.Invoking.{HasNoCycle};
ghost use Rattle.cd_routes.specs.Named.{named_routes};
ghost use Rattle.cd_routes.specs.Running.{Rest, Named, nothing_left, with_changes, after, handled, in_place, caught, is_taken, with_group, with_error, run_route, run_routes, run_step, run_steps};
ghost use Rattle.cd_routes.specs.Work.{Weights, handler_weight, named_weights, done, all_changes, weight, route_weight, step_weight, told, weight_left, total, subroute_weight};

use crate::named::{NamedRoute, route_named};
use crate::outcome::{Outcome, bare_answer};
use crate::route::{Route, Step, Subroute};
use crate::work::{Progress, Work, behind, first_of, take_next};
use cd_fill::{Failure, Scene, let_go, response_of};
use cd_handlers::{Deed, Effect, FilledChanges, Handler, changed, deed, usual_status};
use cd_match::is_listed;
use cd_text::{List, NoMemory, Octets, Text};
use cd_wire::Answer;
use std::alloc::Global;

#[tactic(auto, unfolding(crate::specs::Running::nothing_left))]
fn nothing_left<'r>(scene: Scene<'r>) -> Outcome<'r>
    ensures { result ≡ nothing_left scene.entry }
{
    let status = usual_status(&scene.error);
    Outcome::Answered(bare_answer(status, response_of(scene)))
}

fn is_taken(group: &Option<Text>, scene: &Scene<'_>) -> bool
    ensures { result ≡ is_taken group.now scene.now }
{
    match group {
        None => false,
        Some(group) => is_listed(scene.groups.as_slice(), group.as_str().as_bytes()),
    }
}

fn add_group(alloc: Global, group: &Text, groups: &mut List<Text>) -> Result<(), NoMemory>
    ensures { IfOk result (λ _. groups.new ≡ groups.old ++ group.now ∷ []) }
{
    let group = group.copy(alloc)?;
    groups.push(group)
}

fn with_group<'r>(
    alloc: Global,
    group: &Option<Text>,
    scene: Scene<'r>,
) -> Result<Scene<'r>, NoMemory>
    ensures { IfOk result (λ made. made ≡ with_group group.now scene.entry) }
{
    let mut scene = scene;
    match group {
        None => Ok(scene),
        Some(group) => match add_group(alloc, group, &mut scene.groups) {
            Ok(()) => Ok(scene),
            Err(NoMemory) => Err(let_go(scene)),
        },
    }
}

/// The scene in which a failure is handled.
pub fn with_error<'r>(status: u16, message: Octets, scene: Scene<'r>) -> Scene<'r>
    ensures { result ≡ with_error status message scene.entry }
{
    let mut scene = scene;
    scene.error = Some(Failure { status, message });
    scene
}

#[tactic(auto, unfolding(crate::specs::Running::with_changes))]
fn with_changes<'r>(
    alloc: Global,
    changes: FilledChanges<'_>,
    outcome: Outcome<'r>,
) -> Result<Outcome<'r>, NoMemory>
    ensures { IfOk result (λ made. made ≡ with_changes (Option.Some changes.entry) outcome.entry) }
{
    match outcome {
        Outcome::Answered(answer) => {
            let Answer {
                status,
                fields,
                body,
                close,
            } = answer;
            let fields = changed(alloc, changes, fields)?;
            Ok(Outcome::Answered(Answer {
                status,
                fields,
                body,
                close,
            }))
        }
        Outcome::Failed(scene, status, message) => Ok(Outcome::Failed(scene, status, message)),
    }
}

// What becomes of the outcome of what handlers left changes for: the last of them comes first.
#[tactic(auto, using(crate::proofs::Equations::all_changes_push), unfolding(crate::specs::Work::all_changes))]
fn with_all_changes<'r>(
    alloc: Global,
    changes: List<FilledChanges<'_>>,
    outcome: Outcome<'r>,
) -> Result<Outcome<'r>, NoMemory>
    ensures { IfOk result (λ made. made ≡ all_changes changes.entry outcome.entry) }
{
    let mut changes = changes;
    let mut outcome = outcome;
    while let Some(last) = changes.pop() {
        outcome = with_changes(alloc, last, outcome)?;
    }
    Ok(outcome)
}

fn enters(alloc: Global, route: &Route, scene: &Scene<'_>) -> Result<bool, NoMemory>
    ensures { IfOk result (λ answer. answer
        ≡ (holds (out-Route route.now).matching scene.now && not (is_taken (out-Route route.now).group scene.now))) }
{
    if !route.matching.holds(alloc, scene)? {
        return Ok(false);
    }
    Ok(!is_taken(&route.group, scene))
}

// The routes from the first one on that is taken. What stands before it is passed over, and the scene stays where it is.
fn from_first_taken<'r>(
    alloc: Global,
    routes: &'r [Route],
    scene: &Scene<'_>,
) -> Result<&'r [Route], NoMemory>
    ensures same { IfOk result (λ left. (named : Named) (rest : Rest) → run_routes named left.now rest scene.now ≡ run_routes named routes.now rest scene.now) }
    ensures less { IfOk result (λ left. (w : Weights) → total (map (route_weight w) left.now) ≤ total (map (route_weight w) routes.now)) }
    ensures first { IfOk result (λ left. (r : RouteSettings) (others : List RouteSettings) → left.now ≡ r ∷ others
        → true ≡ (holds (out-Route r).matching scene.now && not (is_taken (out-Route r).group scene.now))) }
{
    let mut left = routes;
    while let Some((route, others)) = first_of(left) {
        if enters(alloc, route, scene)? {
            return Ok(left);
        }
        left = others;
    }
    Ok(left)
}

// The steps of a route, and what follows them.
#[tactic(auto, using(crate::proofs::Equations::done_push, crate::proofs::Equations::weight_push, crate::proofs::Equations::route_weight_is))]
fn entered<'r>(
    alloc: Global,
    route: &'r Route,
    rest: Vec<Work<'r>>,
    scene: Scene<'r>,
) -> Result<Progress<'r, 'r>, NoMemory>
    ensures meaning { IfOk result (λ progress. (named : Named) → told named progress
        ≡ run_steps named (out-Route route.now).handle
        (if (out-Route route.now).terminal then nothing_left else done named rest.entry.items)
        (with_group (out-Route route.now).group scene.entry)) }
    ensures less { IfOk result (λ progress. (w : Weights) → weight_left w progress ≤ weight w rest.entry.items + route_weight w route.now) }
{
    let scene = with_group(alloc, &route.group, scene)?;
    let mut rest = behind(route.terminal, rest);
    match rest.push(Work::Steps(route.handle.as_slice())) {
        Ok(()) => Ok(Progress::Goes(rest, scene)),
        Err(_) => Err(let_go(scene)),
    }
}

// Routes, and what follows them.
fn on_routes<'r>(
    alloc: Global,
    routes: &'r [Route],
    rest: Vec<Work<'r>>,
    scene: Scene<'r>,
) -> Result<Progress<'r, 'r>, NoMemory>
    ensures meaning { IfOk result (λ progress. (named : Named) → told named progress ≡ run_routes named routes.now (done named rest.entry.items) scene.entry) }
    ensures less { IfOk result (λ progress. (w : Weights) → weight_left w progress ≤ weight w rest.entry.items + total (map (route_weight w) routes.now)) }
{
    let Ok(left) = from_first_taken(alloc, routes, &scene) else {
        return Err(let_go(scene));
    };
    match first_of(left) {
        None => Ok(Progress::Goes(rest, scene)),
        Some((route, others)) => {
            let mut rest = rest;
            let Ok(()) = rest.push(Work::Routes(others)) else {
                return Err(let_go(scene));
            };
            entered(alloc, route, rest, scene)
        }
    }
}

// What follows a handler that has done this.
#[tactic(auto, unfolding(crate::specs::Running::with_changes))]
fn after<'r>(deed: Deed<'r, 'r>, rest: Vec<Work<'r>>) -> Progress<'r, 'r>
    ensures meaning { (named : Named) → told named result ≡ after deed.entry.changes (done named rest.entry.items) deed.entry.effect }
    ensures less { (w : Weights) → weight_left w result ≤ weight w rest.entry.items + 2 }
{
    let Deed { effect, changes } = deed;
    match effect {
        Effect::Next(scene) => match changes {
            None => Progress::Goes(rest, scene),
            Some(changes) => Progress::Leaves(changes, rest, scene),
        },
        Effect::Answered(answer) => Progress::Ends(Outcome::Answered(answer)),
        Effect::Failed(scene, status, message) => {
            Progress::Ends(Outcome::Failed(scene, status, message))
        }
    }
}

// A handler by itself, and what follows it.
#[tactic(auto, using(crate::proofs::Pushes::after_same))]
fn apply<'r>(
    alloc: Global,
    handler: &'r Handler,
    rest: Vec<Work<'r>>,
    scene: Scene<'r>,
) -> Result<Progress<'r, 'r>, NoMemory>
    ensures meaning { IfOk result (λ progress. (named : Named) → told named progress ≡ handled handler.now (done named rest.entry.items) scene.entry) }
    ensures less { IfOk result (λ progress. (w : Weights) → weight_left w progress ≤ weight w rest.entry.items + 2) }
{
    let done = deed(alloc, handler, scene)?;
    Ok(after(done, rest))
}

// A route, and what follows it.
fn on_route<'r>(
    alloc: Global,
    route: &'r Route,
    rest: Vec<Work<'r>>,
    scene: Scene<'r>,
) -> Result<Progress<'r, 'r>, NoMemory>
    ensures meaning { IfOk result (λ progress. (named : Named) → told named progress ≡ run_route named route.now (done named rest.entry.items) scene.entry) }
    ensures less { IfOk result (λ progress. (w : Weights) → weight_left w progress ≤ weight w rest.entry.items + route_weight w route.now) }
{
    let Ok(enters) = enters(alloc, route, &scene) else {
        return Err(let_go(scene));
    };
    if !enters {
        return Ok(Progress::Goes(rest, scene));
    }
    entered(alloc, route, rest, scene)
}

// The named route of a name, and what follows it. A name that is unknown does nothing.
fn invoke<'r>(
    alloc: Global,
    named: &'r [NamedRoute],
    name: &Text,
    rest: Vec<Work<'r>>,
    scene: Scene<'r>,
) -> Result<Progress<'r, 'r>, NoMemory>
    requires { HasNoCycle named.now }
    ensures meaning { IfOk result (λ progress. told (named_routes named.now) progress ≡ named_routes named.now name.now (done (named_routes named.now) rest.entry.items) scene.entry) }
    ensures less { IfOk result (λ progress. weight_left (named_weights named.now) progress ≤ weight (named_weights named.now) rest.entry.items + (2 + named_weights named.now name.now)) }
{
    match route_named(named, name) {
        None => Ok(Progress::Goes(rest, scene)),
        Some(found) => on_route(alloc, &found.route, rest, scene),
    }
}

// A handler, and what follows it.
fn handle<'r>(
    alloc: Global,
    named: &'r [NamedRoute],
    handler: &'r Handler,
    rest: Vec<Work<'r>>,
    scene: Scene<'r>,
) -> Result<Progress<'r, 'r>, NoMemory>
    requires { HasNoCycle named.now }
    ensures meaning { IfOk result (λ progress. told (named_routes named.now) progress
        ≡ in_place (named_routes named.now) (invoked handler.now) handler.now (done (named_routes named.now) rest.entry.items) scene.entry) }
    ensures less { IfOk result (λ progress. weight_left (named_weights named.now) progress ≤ weight (named_weights named.now) rest.entry.items + handler_weight (named_weights named.now) (invoked handler.now)) }
{
    match handler.invoked() {
        None => apply(alloc, handler, rest, scene),
        Some(name) => invoke(alloc, named, name, rest, scene),
    }
}

// Steps, and what follows them.
#[cycle(run)]
#[tactic(auto, unfolding(crate::specs::Running::in_order))]
fn on_steps<'r>(
    alloc: Global,
    named: &'r [NamedRoute],
    steps: &'r [Step],
    rest: Vec<Work<'r>>,
    scene: Scene<'r>,
) -> Result<Progress<'r, 'r>, NoMemory>
    requires { HasNoCycle named.now }
    ensures meaning { IfOk result (λ progress. told (named_routes named.now) progress ≡ run_steps (named_routes named.now) steps.now (done (named_routes named.now) rest.entry.items) scene.entry) }
    ensures less { IfOk result (λ progress. weight_left (named_weights named.now) progress ≤ weight (named_weights named.now) rest.entry.items + total (map (step_weight (named_weights named.now)) steps.now)) }
{
    match first_of(steps) {
        None => Ok(Progress::Goes(rest, scene)),
        Some((step, others)) => {
            let mut rest = rest;
            let Ok(()) = rest.push(Work::Steps(others)) else {
                return Err(let_go(scene));
            };
            begin(alloc, named, step, rest, scene)
        }
    }
}

// A step, and what follows it.
#[cycle(run)]
fn begin<'r>(
    alloc: Global,
    named: &'r [NamedRoute],
    step: &'r Step,
    rest: Vec<Work<'r>>,
    scene: Scene<'r>,
) -> Result<Progress<'r, 'r>, NoMemory>
    requires { HasNoCycle named.now }
    ensures meaning { IfOk result (λ progress. told (named_routes named.now) progress ≡ run_step (named_routes named.now) step.now (done (named_routes named.now) rest.entry.items) scene.entry) }
    ensures less { IfOk result (λ progress. weight_left (named_weights named.now) progress ≤ weight (named_weights named.now) rest.entry.items + step_weight (named_weights named.now) step.now) }
{
    match step {
        Step::Handler(handler) => handle(alloc, named, handler, rest, scene),
        Step::Subroute(subroute) => nest(alloc, named, subroute, rest, scene),
    }
}

// The same work with routes in front of it.
fn in_front<'r>(
    alloc: Global,
    routes: &'r [Route],
    rest: &Vec<Work<'r>>,
) -> Result<Vec<Work<'r>>, NoMemory>
    ensures { IfOk result (λ made. made.items ≡ rest.now.items ++ Routes routes.entry ∷ []) }
{
    let mut tried = Vec::from_slice(alloc, rest.as_slice())?;
    tried.push(Work::Routes(routes))?;
    Ok(tried)
}

// A subroute, and what follows it.
#[cycle(run)]
fn nest<'r>(
    alloc: Global,
    named: &'r [NamedRoute],
    subroute: &'r Subroute,
    rest: Vec<Work<'r>>,
    scene: Scene<'r>,
) -> Result<Progress<'r, 'r>, NoMemory>
    requires { HasNoCycle named.now }
    ensures meaning { IfOk result (λ progress. told (named_routes named.now) progress
        ≡ caught (option_map (map (run_route (named_routes named.now))) (out-Subroute subroute.now).errors) (done (named_routes named.now) rest.entry.items)
        (run_routes (named_routes named.now) (out-Subroute subroute.now).routes (done (named_routes named.now) rest.entry.items) scene.entry)) }
    ensures less { IfOk result (λ progress. weight_left (named_weights named.now) progress ≤ weight (named_weights named.now) rest.entry.items + subroute_weight (named_weights named.now) (out-Subroute subroute.now)) }
{
    match &subroute.errors {
        None => {
            let mut rest = rest;
            let Ok(()) = rest.push(Work::Routes(subroute.routes.as_slice())) else {
                return Err(let_go(scene));
            };
            Ok(Progress::Goes(rest, scene))
        }
        Some(errors) => {
            let Ok(tried) = in_front(alloc, subroute.routes.as_slice(), &rest) else {
                return Err(let_go(scene));
            };
            match run(alloc, named, tried, scene)? {
                Outcome::Answered(answer) => Ok(Progress::Ends(Outcome::Answered(answer))),
                Outcome::Failed(scene, status, message) => {
                    let mut rest = rest;
                    let Ok(()) = rest.push(Work::Routes(errors.as_slice())) else {
                        return Err(let_go(scene));
                    };
                    Ok(Progress::Goes(rest, with_error(status, message, scene)))
                }
            }
        }
    }
}

// Does the item that comes first.
#[cycle(run)]
fn advance<'r>(
    alloc: Global,
    named: &'r [NamedRoute],
    work: Vec<Work<'r>>,
    scene: Scene<'r>,
) -> Result<Progress<'r, 'r>, NoMemory>
    requires { HasNoCycle named.now }
    ensures meaning { IfOk result (λ progress. told (named_routes named.now) progress ≡ done (named_routes named.now) work.entry.items scene.entry) }
    ensures less { IfOk result (λ progress. weight_left (named_weights named.now) progress ≤ weight (named_weights named.now) work.entry.items) }
{
    let mut work = work;
    match take_next(&mut work) {
        None => Ok(Progress::Ends(nothing_left(scene))),
        Some(Work::Routes(routes)) => on_routes(alloc, routes, work, scene),
        Some(Work::Steps(steps)) => on_steps(alloc, named, steps, work, scene),
    }
}

// Does all that is to be done. It calls itself at a subroute with errors alone.
#[cycle(run)]
fn run<'r>(
    alloc: Global,
    named: &'r [NamedRoute],
    work: Vec<Work<'r>>,
    scene: Scene<'r>,
) -> Result<Outcome<'r>, NoMemory>
    requires { HasNoCycle named.now }
    ensures { IfOk result (λ outcome. outcome ≡ done (named_routes named.now) work.entry.items scene.entry) }
{
    let mut left = List::new(alloc);
    let mut progress = Progress::Goes(work, scene);
    loop {
        match progress {
            Progress::Ends(outcome) => return with_all_changes(alloc, left, outcome),
            Progress::Leaves(changes, work, scene) => {
                let Ok(()) = left.push(changes) else {
                    return Err(let_go(scene));
                };
                progress = Progress::Goes(work, scene);
            }
            Progress::Goes(work, scene) => progress = advance(alloc, named, work, scene)?,
        }
    }
}

/// What routes make of a request, where nothing follows them.
#[tactic(auto, using(crate::proofs::Pushes::done_one))]
pub fn run_routes<'r>(
    alloc: Global,
    named: &'r [NamedRoute],
    routes: &'r [Route],
    scene: Scene<'r>,
) -> Result<Outcome<'r>, NoMemory>
    requires { HasNoCycle named.now }
    ensures { IfOk result (λ outcome. outcome ≡ run_routes (named_routes named.now) routes.now nothing_left scene.entry) }
{
    let mut work = Vec::new(alloc);
    match work.push(Work::Routes(routes)) {
        Ok(()) => run(alloc, named, work, scene),
        Err(_) => Err(let_go(scene)),
    }
}
