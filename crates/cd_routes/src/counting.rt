//! How much there is in the routes of a server. What is counted ends at `usize::MAX`.
ghost use Rattle.std.specs.Prelude.{◌≡◌, ◌+◌, ℕ, IfOk, length, map, sum, min, option_map};
ghost use Rattle.std.specs.List.{slice_get};
ghost use Rattle.cd_leads.specs.Totals.{AreCounts};
ghost use Rattle.cd_routes.specs.declared.route.Subroute.{out-Subroute};
ghost use Rattle.cd_routes.specs.Invoking.{HasNoCycle};
ghost use Rattle.cd_routes.specs.Counting.{weight, catches, route_count, step_count, routes_count, errors_count, all_count, own_count, expanded_count, expanded_routes, error_subroutes};

use crate::leading::{leads_of, order_of, server_places};
use crate::named::NamedRoute;
use crate::route::{Route, Step, Subroute};
use crate::server::Server;
use cd_leads::{sum_of, totals};
use cd_text::{List, NoMemory};
use std::alloc::Global;

/// What each thing counts by itself.
#[derive(Clone, Copy, Debug)]
pub struct Rates {
    /// Each handler, a subroute too.
    pub step: usize,
    pub route: usize,
    /// The errors of a subroute, where they are given.
    pub errors: usize,
}

// Each of these takes stack for a subroute inside another alone, and none for a route more.

#[cycle(counting)]
fn routes_count(routes: &[Route], rates: Rates) -> usize
    ensures { result ≡ min (routes_count rates routes.now) usize.MAX }
{
    let mut found = 0usize;
    for route in routes {
        found = found.saturating_add(route_count(route, rates));
    }
    found
}

#[cycle(counting)]
fn route_count(route: &Route, rates: Rates) -> usize
    ensures { result ≡ min (route_count rates route.now) usize.MAX }
{
    rates
        .route
        .saturating_add(steps_count(route.handle.as_slice(), rates))
}

#[cycle(counting)]
fn steps_count(steps: &[Step], rates: Rates) -> usize
    ensures { result ≡ min (sum (map (step_count rates) steps.now)) usize.MAX }
{
    let mut found = 0usize;
    for step in steps {
        found = found.saturating_add(step_count(step, rates));
    }
    found
}

#[cycle(counting)]
fn step_count(step: &Step, rates: Rates) -> usize
    ensures { result ≡ min (step_count rates step.now) usize.MAX }
{
    match step {
        Step::Handler(_) => rates.step,
        Step::Subroute(inside) => rates.step.saturating_add(subroute_count(inside, rates)),
    }
}

#[cycle(counting)]
fn subroute_count(inside: &Subroute, rates: Rates) -> usize
    ensures { result ≡ min (sum (map (route_count rates) (out-Subroute inside.now).routes)
        + errors_count rates (option_map (map (route_count rates)) (out-Subroute inside.now).errors)) usize.MAX }
{
    let main = routes_count(inside.routes.as_slice(), rates);
    match &inside.errors {
        None => main,
        Some(errors) => {
            let caught = routes_count(errors.as_slice(), rates);
            main.saturating_add(rates.errors.saturating_add(caught))
        }
    }
}

fn all_count(server: &Server, rates: Rates) -> usize
    ensures { result ≡ min (all_count rates (server.now).routes (server.now).errors) usize.MAX }
{
    let main = routes_count(server.routes.as_slice(), rates);
    match &server.errors {
        None => main,
        Some(errors) => main.saturating_add(routes_count(errors.as_slice(), rates)),
    }
}

// ---- with the named routes that are invoked

// What each named route counts by itself.
fn own_counts(alloc: Global, named: &[NamedRoute], rates: Rates) -> Result<Vec<usize>, NoMemory>
    ensures { IfOk result (λ made. AreCounts (length named.now) made.items (λ n. own_count rates (slice_get named.now n))) }
{
    let mut counts = Vec::new(alloc);
    for one in named {
        counts.push(route_count(&one.route, rates))?;
    }
    Ok(counts)
}

impl Server {
    // Each named route is counted once, however often it is invoked.
    fn expanded_count(&self, alloc: Global, rates: Rates) -> Result<usize, NoMemory>
        requires { HasNoCycle (self.now).named }
        ensures { IfOk result (λ count. count ≡ min (expanded_count rates self.now) usize.MAX) }
    {
        let named = self.named.as_slice();
        let leads = leads_of(alloc, named)?;
        let order = order_of(alloc, named, leads.as_slice())?;
        let own = own_counts(alloc, named, rates)?;
        let counts = totals(alloc, leads.as_slice(), &own, order.as_slice())?;
        let places = server_places(alloc, self)?;
        Ok(all_count(self, rates).saturating_add(sum_of(places.as_slice(), &counts)))
    }

    /// What its routes and its errors weigh together: one for each route and each handler, those of subroutes too, and at each
    /// `invoke` what its named route weighs. No named route may lead to itself. The count ends at `usize::MAX`.
    pub fn expanded_routes(&self, alloc: Global) -> Result<usize, NoMemory>
        requires { HasNoCycle (self.now).named }
        ensures { IfOk result (λ count. count ≡ min (expanded_routes self.now) usize.MAX) }
    {
        self.expanded_count(
            alloc,
            Rates {
                step: 1,
                route: 1,
                errors: 0,
            },
        )
    }

    /// How many of its subroutes have errors, at any depth, and at each `invoke` those of its named route. Each of them may have
    /// all that follows it done a second time, so their number is to be limited. No named route may lead to itself. The count
    /// ends at `usize::MAX`.
    pub fn error_subroutes(&self, alloc: Global) -> Result<usize, NoMemory>
        requires { HasNoCycle (self.now).named }
        ensures { IfOk result (λ count. count ≡ min (error_subroutes self.now) usize.MAX) }
    {
        self.expanded_count(
            alloc,
            Rates {
                step: 0,
                route: 0,
                errors: 1,
            },
        )
    }
}
