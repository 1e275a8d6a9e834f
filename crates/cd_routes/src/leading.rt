//! Which named routes lead to which, by their places.
ghost use Rattle.std.specs.Prelude.{◌≡◌, ◌++◌, [], get_or, map, None, IfOk, OnOk};
ghost use Rattle.std.specs.Option.{option_copied};
ghost use Rattle.cd_leads.specs.Orders.{IsOrder};
ghost use Rattle.cd_routes.specs.declared.route.Subroute.{out-Subroute};
ghost use Rattle.cd_routes.specs.Invoking.{HasNoCycle, errors_invoke, first_in_cycle, joined, leads_of, one_name, place_of, route_invokes, route_names, routes_invoke, step_invokes};
ghost use Rattle.cd_handlers.specs.Invoke.{invoked};
ghost use Rattle.cd_routes.specs.Counting.{server_places};
ghost use Rattle.cd_routes.specs.NameList.{leads_by};

use crate::name_list::NameList;
use crate::named::{NamedRoute, names_of};
use crate::route::{Route, Step, Subroute};
use crate::server::Server;
use cd_handlers::Handler;
use cd_leads::{Sorted, least_in_cycle, sorted_after_named};
use cd_text::{List, NoMemory};
use std::alloc::Global;

// ---- the places that routes invoke: each of these adds those of a value to those before

#[cycle(leading)]
fn add_routes(names: &NameList, routes: &[Route], out: &mut List<usize>) -> Result<(), NoMemory>
    ensures { OnOk result (out.new ≡ out.old ++ map (place_of names.now) (routes_invoke routes.now)) }
{
    for route in routes {
        add_route(names, route, out)?;
    }
    Ok(())
}

#[cycle(leading)]
fn add_route(names: &NameList, route: &Route, out: &mut List<usize>) -> Result<(), NoMemory>
    ensures { OnOk result (out.new ≡ out.old ++ map (place_of names.now) (route_invokes route.now)) }
{
    add_steps(names, route.handle.as_slice(), out)
}

#[cycle(leading)]
fn add_steps(names: &NameList, steps: &[Step], out: &mut List<usize>) -> Result<(), NoMemory>
    ensures { OnOk result (out.new ≡ out.old ++ map (place_of names.now) (joined (map step_invokes steps.now))) }
{
    for step in steps {
        add_step(names, step, out)?;
    }
    Ok(())
}

#[cycle(leading)]
fn add_step(names: &NameList, step: &Step, out: &mut List<usize>) -> Result<(), NoMemory>
    ensures { OnOk result (out.new ≡ out.old ++ map (place_of names.now) (step_invokes step.now)) }
{
    match step {
        Step::Handler(handler) => add_invoked(names, handler, out),
        Step::Subroute(inside) => add_subroute(names, inside, out),
    }
}

fn add_invoked(names: &NameList, handler: &Handler, out: &mut List<usize>) -> Result<(), NoMemory>
    ensures { OnOk result (out.new ≡ out.old ++ map (place_of names.now) (one_name (invoked handler.now))) }
{
    match handler.invoked() {
        None => Ok(()),
        Some(name) => out.push(names.place_of(name)),
    }
}

#[cycle(leading)]
fn add_subroute(names: &NameList, inside: &Subroute, out: &mut List<usize>) -> Result<(), NoMemory>
    ensures { OnOk result (out.new ≡ out.old ++ map (place_of names.now) (routes_invoke (out-Subroute inside.now).routes ++ errors_invoke (out-Subroute inside.now).errors)) }
{
    add_routes(names, inside.routes.as_slice(), out)?;
    match &inside.errors {
        None => Ok(()),
        Some(errors) => add_routes(names, errors.as_slice(), out),
    }
}

fn places_by(alloc: Global, names: &NameList, server: &Server) -> Result<List<usize>, NoMemory>
    ensures { IfOk result (λ made. made ≡ map (place_of names.now) (routes_invoke (server.now).routes ++ errors_invoke (server.now).errors)) }
{
    let mut out = List::new(alloc);
    add_routes(names, server.routes.as_slice(), &mut out)?;
    if let Some(errors) = &server.errors {
        add_routes(names, errors.as_slice(), &mut out)?;
    }
    Ok(out)
}

/// The places of the named routes that the routes and the errors of a server invoke.
pub fn server_places(alloc: Global, server: &Server) -> Result<List<usize>, NoMemory>
    ensures { IfOk result (λ made. made ≡ server_places server.now) }
{
    let names = names_of(alloc, server.named.as_slice())?;
    places_by(alloc, &names, server)
}

fn route_places(alloc: Global, names: &NameList, route: &Route) -> Result<List<usize>, NoMemory>
    ensures { IfOk result (λ made. made ≡ map (place_of names.now) (route_invokes route.now)) }
{
    let mut out = List::new(alloc);
    add_route(names, route, &mut out)?;
    Ok(out)
}

fn leads_by(
    alloc: Global,
    names: &NameList,
    named: &[NamedRoute],
) -> Result<List<List<usize>>, NoMemory>
    ensures { IfOk result (λ made. made ≡ leads_by names.now named.now) }
{
    let mut out = List::new(alloc);
    for one in named {
        out.push(route_places(alloc, names, &one.route)?)?;
    }
    Ok(out)
}

/// The places of the named routes that each of them invokes.
pub fn leads_of(alloc: Global, named: &[NamedRoute]) -> Result<List<List<usize>>, NoMemory>
    ensures { IfOk result (λ made. made ≡ leads_of named.now) }
{
    let names = names_of(alloc, named)?;
    leads_by(alloc, &names, named)
}

/// An order in which each named route stands after those that it invokes.
pub fn order_of(
    alloc: Global,
    named: &[NamedRoute],
    leads: &[List<usize>],
) -> Result<List<usize>, NoMemory>
    requires cycle { HasNoCycle named.now }
    requires leads { leads.now ≡ leads_of named.now }
    ensures { IfOk result (λ order. IsOrder (leads_of named.now) order) }
{
    let _ = named;
    match sorted_after_named(alloc, leads)? {
        Sorted::Order(order) => Ok(order),
        Sorted::Cycle(_) => Ok(List::new(alloc)),
    }
}

// The name of the named route at a place; an empty one beyond them.
fn name_at(named: &[NamedRoute], place: usize) -> &str
    ensures { result.now ≡ get_or (route_names named.now) place [] }
{
    match named.get(place) {
        Some(one) => one.name.as_str(),
        None => "",
    }
}

impl Server {
    /// The name of the first of its named routes that leads to itself, in one or more steps; `None` where none does. Each name
    /// that is invoked is found by halves; the rest takes as many steps as there are such names, a few times over.
    pub fn first_in_cycle(&self, alloc: Global) -> Result<Option<&str>, NoMemory>
        ensures name { IfOk result (λ found. option_copied found ≡ first_in_cycle (self.now).named) }
        ensures none { IfOk result (λ found. found ≡ None → HasNoCycle (self.now).named) }
    {
        let named = self.named.as_slice();
        let leads = leads_of(alloc, named)?;
        match least_in_cycle(alloc, leads.as_slice())? {
            None => Ok(None),
            Some(place) => Ok(Some(name_at(named, place))),
        }
    }
}
