//! The modules of a configuration, one after another, with their paths.
//!
//! Each function here adds the modules of a value to those before. Where the value is, is lent, and kept for a module alone. The
//! modules in a list of routes share the path of the list.
//! What is inside another takes stack, and what follows another takes none.
ghost use Rattle.std.specs.Prelude.{◌≡◌, ◌++◌, ◌∷◌, [], map, codes, IfOk, OnOk};
ghost use Rattle.std.specs.List.{flat_map};
ghost use Rattle.cd_tree.specs.Path.{◌▸◌};
ghost use Rattle.cd_routes.specs.declared.route.Subroute.{out-Subroute};
ghost use Rattle.cd_standard.specs.Plans.{planned, in_elements, matcher_modules, set_modules, step_modules, route_modules, routes_modules, errors_modules, named_modules, after_routes, server_modules};
ghost use Rattle.cd_standard.specs.Walking.{in_matcher};

use crate::found::{Found, ModuleKind};
use cd_legal::PlanModule;
use cd_match::{Matcher, MatcherSet};
use cd_routes::{NamedRoute, Route, Server, Step, Subroute};
use cd_text::{List, NoMemory};
use cd_tree::{Place, SharedText};
use std::alloc::Global;

// ---- a module

pub fn add_module(
    alloc: Global,
    id: SharedText,
    at: &Place<'_>,
    out: &mut Found,
) -> Result<(), NoMemory>
    ensures { OnOk result (out.new ≡ out.old ++ planned id at.now ∷ []) }
{
    let at = at.to_spot(alloc)?;
    out.push(PlanModule {
        name: id,
        at,
        keys: List::new(alloc),
    })
}

// ---- matchers

#[cycle(adding_matchers)]
fn add_sets(
    alloc: Global,
    sets: &[MatcherSet],
    at: &Place<'_>,
    out: &mut Found,
) -> Result<(), NoMemory>
    ensures { OnOk result (out.new ≡ out.old ++ in_elements 0 (map set_modules sets.now) at.now) }
{
    for (place, set) in sets.iter().enumerate() {
        add_set(alloc, set, &at.element(place), out)?;
    }
    Ok(())
}

#[cycle(adding_matchers)]
fn add_set(alloc: Global, set: &MatcherSet, at: &Place<'_>, out: &mut Found) -> Result<(), NoMemory>
    ensures { OnOk result (out.new ≡ out.old ++ set_modules set.now at.now) }
{
    for matcher in set.matchers.as_slice() {
        add_matcher(alloc, matcher, at, out)?;
    }
    Ok(())
}

#[cycle(adding_matchers)]
fn add_matcher(
    alloc: Global,
    matcher: &Matcher,
    at: &Place<'_>,
    out: &mut Found,
) -> Result<(), NoMemory>
    ensures { OnOk result (out.new ≡ out.old ++ matcher_modules matcher.now at.now) }
{
    let ModuleKind { name, id } = out.kind(alloc, "http.matchers.", matcher.name())?;
    let here = (&*at).named(&name);
    add_module(alloc, id, &here, out)?;
    add_inside(alloc, matcher, &here, out)?;
    Ok(())
}

// What is inside a matcher.
#[cycle(adding_matchers)]
fn add_inside(
    alloc: Global,
    matcher: &Matcher,
    at: &Place<'_>,
    out: &mut Found,
) -> Result<(), NoMemory>
    ensures { OnOk result (out.new ≡ out.old ++ in_matcher matcher.now at.now) }
{
    match matcher {
        Matcher::Not(none) => add_sets(alloc, none.sets.as_slice(), at, out),
        _ => Ok(()),
    }
}

// ---- routes

#[cycle(adding_routes)]
fn add_routes(
    alloc: Global,
    routes: &[Route],
    at: &Place<'_>,
    out: &mut Found,
) -> Result<(), NoMemory>
    ensures { OnOk result (out.new ≡ out.old ++ routes_modules routes.now at.now) }
{
    for (place, route) in routes.iter().enumerate() {
        add_route(alloc, route, &at.element(place), out)?;
    }
    Ok(())
}

#[cycle(adding_routes)]
fn add_route(alloc: Global, route: &Route, at: &Place<'_>, out: &mut Found) -> Result<(), NoMemory>
    ensures { OnOk result (out.new ≡ out.old ++ route_modules route.now at.now) }
{
    add_match(alloc, route.matching.sets.as_slice(), at, out)?;
    add_handle(alloc, route.handle.as_slice(), at, out)?;
    Ok(())
}

// The sets of a route.
fn add_match(
    alloc: Global,
    sets: &[MatcherSet],
    at: &Place<'_>,
    out: &mut Found,
) -> Result<(), NoMemory>
    ensures { OnOk result (out.new ≡ out.old ++ in_elements 0 (map set_modules sets.now) (at.now ▸ codes "match")) }
{
    let word = out.words().matching()?;
    add_sets(alloc, sets, &at.named(&word), out)
}

// The steps of a route.
#[cycle(adding_routes)]
fn add_handle(
    alloc: Global,
    steps: &[Step],
    at: &Place<'_>,
    out: &mut Found,
) -> Result<(), NoMemory>
    ensures { OnOk result (out.new ≡ out.old ++ in_elements 0 (map step_modules steps.now) (at.now ▸ codes "handle")) }
{
    let word = out.words().handle()?;
    let here = (&*at).named(&word);
    add_steps(alloc, steps, &here, out)
}

#[cycle(adding_routes)]
fn add_steps(alloc: Global, steps: &[Step], at: &Place<'_>, out: &mut Found) -> Result<(), NoMemory>
    ensures { OnOk result (out.new ≡ out.old ++ in_elements 0 (map step_modules steps.now) at.now) }
{
    for (place, step) in steps.iter().enumerate() {
        add_step(alloc, step, &at.element(place), out)?;
    }
    Ok(())
}

#[cycle(adding_routes)]
fn add_step(alloc: Global, step: &Step, at: &Place<'_>, out: &mut Found) -> Result<(), NoMemory>
    ensures { OnOk result (out.new ≡ out.old ++ step_modules step.now at.now) }
{
    let ModuleKind { name: _, id } = out.kind(alloc, "http.handlers.", step.name())?;
    add_module(alloc, id, at, out)?;
    match step {
        Step::Handler(_) => Ok(()),
        Step::Subroute(inside) => add_inside_subroute(alloc, inside, at, out),
    }
}

#[cycle(adding_routes)]
fn add_inside_subroute(
    alloc: Global,
    inside: &Subroute,
    at: &Place<'_>,
    out: &mut Found,
) -> Result<(), NoMemory>
    ensures { OnOk result (out.new ≡ out.old ++ (routes_modules (out-Subroute inside.now).routes (at.now ▸ codes "routes")
        ++ errors_modules (out-Subroute inside.now).errors at.now)) }
{
    let base = out.words().routes(alloc, at)?;
    add_routes(alloc, inside.routes.as_slice(), &base.place(), out)?;
    match &inside.errors {
        None => Ok(()),
        Some(routes) => add_error_routes(alloc, routes.as_slice(), at, out),
    }
}

// The routes of an `errors`.
#[cycle(adding_routes)]
fn add_error_routes(
    alloc: Global,
    routes: &[Route],
    at: &Place<'_>,
    out: &mut Found,
) -> Result<(), NoMemory>
    ensures { OnOk result (out.new ≡ out.old ++ routes_modules routes.now (at.now ▸ codes "errors" ▸ codes "routes")) }
{
    let base = out.words().routes(alloc, &at.member("errors"))?;
    add_routes(alloc, routes, &base.place(), out)
}

fn add_errors(
    alloc: Global,
    errors: &Option<List<Route>>,
    at: &Place<'_>,
    out: &mut Found,
) -> Result<(), NoMemory>
    ensures { OnOk result (out.new ≡ out.old ++ errors_modules errors.now at.now) }
{
    match errors {
        None => Ok(()),
        Some(routes) => add_error_routes(alloc, routes.as_slice(), at, out),
    }
}

// ---- servers

// The servers stand at this path.
pub fn add_servers(
    alloc: Global,
    servers: &[Server],
    at: &Place<'_>,
    out: &mut Found,
) -> Result<(), NoMemory>
    ensures { OnOk result (out.new ≡ out.old ++ flat_map (server_modules at.now) servers.now) }
{
    for server in servers {
        add_server(alloc, server, at, out)?;
    }
    Ok(())
}

fn add_server(
    alloc: Global,
    server: &Server,
    at: &Place<'_>,
    out: &mut Found,
) -> Result<(), NoMemory>
    ensures { OnOk result (out.new ≡ out.old ++ server_modules at.now server.now) }
{
    let name = SharedText::from_str(alloc, server.name.as_str())?;
    let here = at.named(&name);
    let base = out.words().routes(alloc, &here)?;
    add_routes(alloc, server.routes.as_slice(), &base.place(), out)?;
    add_after_routes(alloc, server, &here, out)
}

// The error routes and the named routes of a server.
fn add_after_routes(
    alloc: Global,
    server: &Server,
    at: &Place<'_>,
    out: &mut Found,
) -> Result<(), NoMemory>
    ensures { OnOk result (out.new ≡ out.old ++ after_routes server.now at.now) }
{
    add_errors(alloc, &server.errors, at, out)?;
    add_named_routes(alloc, server.named.as_slice(), at, out)
}

// The named routes of a server, whose path their modules share.
fn add_named_routes(
    alloc: Global,
    named: &[NamedRoute],
    at: &Place<'_>,
    out: &mut Found,
) -> Result<(), NoMemory>
    ensures { OnOk result (out.new ≡ out.old ++ flat_map (named_modules (at.now ▸ codes "named_routes")) named.now) }
{
    let base = at.member("named_routes").to_base(alloc)?;
    add_all_named(alloc, named, &base.place(), out)
}

fn add_all_named(
    alloc: Global,
    named: &[NamedRoute],
    at: &Place<'_>,
    out: &mut Found,
) -> Result<(), NoMemory>
    ensures { OnOk result (out.new ≡ out.old ++ flat_map (named_modules at.now) named.now) }
{
    for one in named {
        add_named(alloc, one, at, out)?;
    }
    Ok(())
}

fn add_named(
    alloc: Global,
    one: &NamedRoute,
    at: &Place<'_>,
    out: &mut Found,
) -> Result<(), NoMemory>
    ensures { OnOk result (out.new ≡ out.old ++ named_modules at.now one.now) }
{
    let name = SharedText::from_str(alloc, one.name.as_str())?;
    add_route(alloc, &one.route, &at.named(&name), out)
}
