ghost use Rattle.std.specs.Prelude.{◌≡◌};
ghost use Rattle.cd_text.specs.Gives.{Gives};
ghost use Rattle.cd_module.specs.Settings.{each, list_of, optional as optional_of};
ghost use Rattle.cd_handlers.specs.Invoke.{invoked};
ghost use Rattle.cd_routes.specs.Reading.{routes, route, step, tested_handler, name_tested, error_routes, subroute, no_sets};

use crate::named::{KnownName, is_known};
use crate::naming::subroute_name;
use crate::route::{Route, Step, Subroute};
use cd_handlers::Handler;
use cd_match::Sets;
use cd_module::{LoadFault, LoadKind, Settings, fields_of, name_of, optional};
use cd_text::{List, Text};
use cd_tree::{Fields, Place, Shared, Tree};
use std::alloc::Global;

/// A list of routes.
#[cycle(routes)]
fn read_routes(
    alloc: Global,
    known: &[KnownName],
    tree: &Tree,
    at: &Place<'_>,
) -> Result<List<Route>, LoadFault>
    ensures { Gives LoadFault.NoMemory result (routes known.now tree.now at.now) }
{
    read_route_list(alloc, known, tree, at)
}

#[cycle(routes)]
fn read_route_list(
    alloc: Global,
    known: &[KnownName],
    tree: &Tree,
    at: &Place<'_>,
) -> Result<List<Route>, LoadFault>
    ensures { Gives LoadFault.NoMemory result (list_of (route known.now (routes known.now)) tree.now at.now) }
{
    match tree {
        Tree::Items(items) => read_each_route(alloc, known, items, at),
        _ => Err(LoadFault::at(alloc, LoadKind::WrongKind, at)),
    }
}

#[cycle(routes)]
fn read_each_route(
    alloc: Global,
    known: &[KnownName],
    items: &Shared<Tree>,
    at: &Place<'_>,
) -> Result<List<Route>, LoadFault>
    ensures { Gives LoadFault.NoMemory result (each (route known.now (routes known.now)) 0 items.now at.now) }
{
    let mut found = List::new(alloc);
    for (place, item) in items.as_slice().iter().enumerate() {
        let here = at.element(place);
        found.push(read_route(alloc, known, item, &here)?)?;
    }
    Ok(found)
}

/// A route, where these are the names of its server's named routes.
#[cycle(routes)]
#[tactic(auto, unfolding(crate::specs::Reading::route))]
pub fn read_route(
    alloc: Global,
    known: &[KnownName],
    tree: &Tree,
    at: &Place<'_>,
) -> Result<Route, LoadFault>
    ensures { Gives LoadFault.NoMemory result (route known.now (routes known.now) tree.now at.now) }
{
    let fields = fields_of(alloc, tree, at, "group match handle terminal")?;
    let group = optional::<Text>(alloc, &fields, at, "group")?;
    let matching = optional::<Sets>(alloc, &fields, at, "match")?;
    let handle = read_steps_member(alloc, known, &fields, at, "handle")?;
    let terminal = optional::<bool>(alloc, &fields, at, "terminal")?;
    Ok(Route {
        group,
        matching: matching.unwrap_or(no_sets(alloc)),
        handle: handle.unwrap_or(List::new(alloc)),
        terminal: terminal.unwrap_or(false),
    })
}

// What a route without `match` has.
fn no_sets(alloc: Global) -> Sets
    ensures { result ≡ no_sets }
{
    Sets {
        sets: List::new(alloc),
    }
}

#[cycle(routes)]
#[tactic(auto, unfolding(cd_module::specs::Settings::optional))]
fn read_steps_member(
    alloc: Global,
    known: &[KnownName],
    fields: &Fields<'_>,
    at: &Place<'_>,
    name: &str,
) -> Result<Option<List<Step>>, LoadFault>
    ensures { Gives LoadFault.NoMemory result (optional_of (list_of (step known.now (routes known.now))) name.now fields.now.members.now at.now) }
{
    match fields.get(name) {
        None => Ok(None),
        Some(tree) => Ok(Some(read_step_list(alloc, known, tree, &at.member(name))?)),
    }
}

#[cycle(routes)]
fn read_step_list(
    alloc: Global,
    known: &[KnownName],
    tree: &Tree,
    at: &Place<'_>,
) -> Result<List<Step>, LoadFault>
    ensures { Gives LoadFault.NoMemory result (list_of (step known.now (routes known.now)) tree.now at.now) }
{
    match tree {
        Tree::Items(items) => read_each_step(alloc, known, items, at),
        _ => Err(LoadFault::at(alloc, LoadKind::WrongKind, at)),
    }
}

#[cycle(routes)]
fn read_each_step(
    alloc: Global,
    known: &[KnownName],
    items: &Shared<Tree>,
    at: &Place<'_>,
) -> Result<List<Step>, LoadFault>
    ensures { Gives LoadFault.NoMemory result (each (step known.now (routes known.now)) 0 items.now at.now) }
{
    let mut found = List::new(alloc);
    for (place, item) in items.as_slice().iter().enumerate() {
        let here = at.element(place);
        found.push(read_step(alloc, known, item, &here)?)?;
    }
    Ok(found)
}

#[cycle(routes)]
#[tactic(auto, unfolding(crate::specs::Reading::step))]
fn read_step(
    alloc: Global,
    known: &[KnownName],
    tree: &Tree,
    at: &Place<'_>,
) -> Result<Step, LoadFault>
    ensures { Gives LoadFault.NoMemory result (step known.now (routes known.now) tree.now at.now) }
{
    let name = name_of(alloc, tree, at, "handler")?;
    if name.equals(subroute_name()) {
        Ok(Step::Subroute(read_subroute(alloc, known, tree, at)?))
    } else {
        read_handler(alloc, known, tree, at)
    }
}

// An `invoke` names a route that is there.
fn test_name(
    alloc: Global,
    known: &[KnownName],
    handler: &Handler,
    at: &Place<'_>,
) -> Result<(), LoadFault>
    ensures { Gives LoadFault.NoMemory result (name_tested known.now (invoked handler.now) at.now) }
{
    match handler.invoked() {
        None => Ok(()),
        Some(name) => {
            if is_known(known, name) {
                return Ok(());
            }
            Err(LoadFault::at(alloc, LoadKind::BadValue, &at.member("name")))
        }
    }
}

// A handler that is no subroute. The name of an `invoke` is tested when it is read.
#[tactic(auto, unfolding(crate::specs::Reading::tested_handler))]
fn read_handler(
    alloc: Global,
    known: &[KnownName],
    tree: &Tree,
    at: &Place<'_>,
) -> Result<Step, LoadFault>
    ensures { Gives LoadFault.NoMemory result (tested_handler known.now tree.now at.now) }
{
    let handler = Handler::read(alloc, tree, at)?;
    test_name(alloc, known, &handler, at)?;
    Ok(Step::Handler(handler))
}

#[cycle(routes)]
#[tactic(auto, unfolding(crate::specs::Reading::subroute))]
fn read_subroute(
    alloc: Global,
    known: &[KnownName],
    tree: &Tree,
    at: &Place<'_>,
) -> Result<Subroute, LoadFault>
    ensures { Gives LoadFault.NoMemory result (subroute (routes known.now) tree.now at.now) }
{
    let fields = fields_of(alloc, tree, at, "handler routes errors")?;
    let routes = read_routes_member(alloc, known, &fields, at, "routes")?;
    let errors = read_errors_member(alloc, known, &fields, at, "errors")?;
    Ok(Subroute {
        routes: routes.unwrap_or(List::new(alloc)),
        errors,
    })
}

/// The routes that a member has, where it is neither absent nor null.
#[cycle(routes)]
#[tactic(auto, unfolding(cd_module::specs::Settings::optional))]
pub fn read_routes_member(
    alloc: Global,
    known: &[KnownName],
    fields: &Fields<'_>,
    at: &Place<'_>,
    name: &str,
) -> Result<Option<List<Route>>, LoadFault>
    ensures { Gives LoadFault.NoMemory result (optional_of (routes known.now) name.now fields.now.members.now at.now) }
{
    match fields.get(name) {
        None => Ok(None),
        Some(tree) => Ok(Some(read_routes(alloc, known, tree, &at.member(name))?)),
    }
}

/// The error routes that a member has, where it is neither absent nor null.
#[cycle(routes)]
#[tactic(auto, unfolding(cd_module::specs::Settings::optional))]
pub fn read_errors_member(
    alloc: Global,
    known: &[KnownName],
    fields: &Fields<'_>,
    at: &Place<'_>,
    name: &str,
) -> Result<Option<List<Route>>, LoadFault>
    ensures { Gives LoadFault.NoMemory result (optional_of (error_routes (routes known.now)) name.now fields.now.members.now at.now) }
{
    match fields.get(name) {
        None => Ok(None),
        Some(tree) => Ok(Some(read_errors(alloc, known, tree, &at.member(name))?)),
    }
}

#[cycle(routes)]
#[tactic(auto, unfolding(crate::specs::Reading::error_routes))]
fn read_errors(
    alloc: Global,
    known: &[KnownName],
    tree: &Tree,
    at: &Place<'_>,
) -> Result<List<Route>, LoadFault>
    ensures { Gives LoadFault.NoMemory result (error_routes (routes known.now) tree.now at.now) }
{
    let fields = fields_of(alloc, tree, at, "routes")?;
    let routes = read_routes_member(alloc, known, &fields, at, "routes")?;
    Ok(routes.unwrap_or(List::new(alloc)))
}
