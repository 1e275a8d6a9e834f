//! How many modules, addresses and servers a configuration has, counted before any list of them is made: addresses by their
//! ranges, and modules without their paths. Each count ends at `usize::MAX`.
ghost use Rattle.std.specs.Prelude.{◌≡◌, ◌++◌, length, map, min};
ghost use Rattle.std.specs.List.{flat_map};
ghost use Rattle.cd_tree.specs.Path.{◌▸◌};
ghost use Rattle.cd_routes.specs.declared.route.Subroute.{out-Subroute};
ghost use Rattle.cd_standard.specs.Loading.{app_servers, servers_of};
ghost use Rattle.cd_standard.specs.Plans.{addresses_of, admin_addresses, app_addresses, app_modules, apps_modules, errors_modules, in_elements, inside_app, listen_addresses, matcher_modules, modules_of, named_modules, after_routes, route_modules, routes_modules, server_addresses, server_modules, set_modules, step_modules, writer_modules};
ghost use Rattle.cd_standard.specs.Walking.{Counts, in_matcher, in_subroute};

use crate::app::App;
use crate::configuration::Configuration;
use cd_admin::Admin;
use cd_log::Logs;
use cd_match::{Matcher, MatcherSet};
use cd_routes::{Listen, NamedRoute, Route, Server, Step, Subroute};
use cd_text::List;

// ---- servers

pub fn count_servers(configuration: &Configuration) -> usize
    ensures { result ≡ min (length (servers_of configuration.now)) usize.MAX }
{
    let mut found = 0usize;
    for app in configuration.apps.as_slice() {
        found = found.saturating_add(servers_in(app));
    }
    found
}

fn servers_in(app: &App) -> usize
    ensures { result ≡ min (length (app_servers app.now)) usize.MAX }
{
    match app {
        App::Echo(_) => 0,
        App::Http(http) => http.servers.len(),
    }
}

// ---- addresses

pub fn count_addresses(configuration: &Configuration) -> usize
    ensures { result ≡ min (length (addresses_of configuration.now)) usize.MAX }
{
    let admin = addresses_in_admin(&configuration.admin);
    admin.saturating_add(addresses_in_apps(configuration.apps.as_slice()))
}

fn addresses_in_admin(admin: &Admin) -> usize
    ensures { result ≡ length (admin_addresses admin.now) }
{
    if admin.disabled { 0 } else { 1 }
}

fn addresses_in_apps(apps: &[App]) -> usize
    ensures { result ≡ min (length (flat_map app_addresses apps.now)) usize.MAX }
{
    let mut found = 0usize;
    for app in apps {
        found = found.saturating_add(addresses_in_app(app));
    }
    found
}

fn addresses_in_app(app: &App) -> usize
    ensures { result ≡ min (length (app_addresses app.now)) usize.MAX }
{
    match app {
        App::Echo(echo) => addresses_in_listen(&echo.listen),
        App::Http(http) => addresses_in_servers(http.servers.as_slice()),
    }
}

fn addresses_in_servers(servers: &[Server]) -> usize
    ensures { result ≡ min (length (flat_map server_addresses servers.now)) usize.MAX }
{
    let mut found = 0usize;
    for server in servers {
        found = found.saturating_add(addresses_in_listen(&server.listen));
    }
    found
}

fn addresses_in_listen(listen: &Listen) -> usize
    ensures { result ≡ min (length (listen_addresses listen.now)) usize.MAX }
{
    let mut found = 0usize;
    for text in listen.texts.as_slice() {
        found = found.saturating_add(text.range.count());
    }
    found
}

// ---- modules

pub fn count_modules(configuration: &Configuration) -> usize
    ensures { result ≡ min (length (modules_of configuration.now)) usize.MAX }
{
    let writers = writers_in(&configuration.logs);
    writers.saturating_add(modules_of_apps(configuration.apps.as_slice()))
}

fn writers_in(logs: &Logs) -> usize
    ensures { result ≡ length (writer_modules logs.now) }
{
    logs.logs.len()
}

fn modules_of_apps(apps: &[App]) -> usize
    ensures { result ≡ min (length (apps_modules apps.now)) usize.MAX }
{
    modules_in_apps(apps)
}

fn modules_in_apps(apps: &[App]) -> usize
    ensures { Counts result (λ at. flat_map (app_modules at) apps.now) }
{
    let mut found = 0usize;
    for app in apps {
        found = found.saturating_add(modules_in_app(app));
    }
    found
}

fn modules_in_app(app: &App) -> usize
    ensures { Counts result (λ at. app_modules at app.now) }
{
    modules_inside_app(app).saturating_add(1)
}

fn modules_inside_app(app: &App) -> usize
    ensures { Counts result (inside_app app.now) }
{
    match app {
        App::Echo(_) => 0,
        App::Http(http) => modules_in_servers(http.servers.as_slice()),
    }
}

fn modules_in_servers(servers: &[Server]) -> usize
    ensures { Counts result (λ at. flat_map (server_modules at) servers.now) }
{
    let mut found = 0usize;
    for server in servers {
        found = found.saturating_add(modules_in_server(server));
    }
    found
}

fn modules_in_server(server: &Server) -> usize
    ensures { Counts result (λ at. server_modules at server.now) }
{
    let routes = modules_in_routes(server.routes.as_slice());
    routes.saturating_add(modules_after_routes(server))
}

fn modules_after_routes(server: &Server) -> usize
    ensures { Counts result (after_routes server.now) }
{
    let errors = modules_in_errors(&server.errors);
    errors.saturating_add(modules_in_named(server.named.as_slice()))
}

fn modules_in_named(named: &[NamedRoute]) -> usize
    ensures { Counts result (λ at. flat_map (named_modules at) named.now) }
{
    let mut found = 0usize;
    for one in named {
        found = found.saturating_add(modules_in_one(one));
    }
    found
}

fn modules_in_one(one: &NamedRoute) -> usize
    ensures { Counts result (λ at. named_modules at one.now) }
{
    modules_in_route(&one.route)
}

fn modules_in_errors(errors: &Option<List<Route>>) -> usize
    ensures { Counts result (errors_modules errors.now) }
{
    match errors {
        None => 0,
        Some(routes) => modules_in_routes(routes.as_slice()),
    }
}

// ---- modules in routes

#[cycle(counting_routes)]
fn modules_in_routes(routes: &[Route]) -> usize
    ensures { Counts result (routes_modules routes.now) }
{
    let mut found = 0usize;
    for route in routes {
        found = found.saturating_add(modules_in_route(route));
    }
    found
}

#[cycle(counting_routes)]
fn modules_in_route(route: &Route) -> usize
    ensures { Counts result (route_modules route.now) }
{
    let matching = modules_in_sets(route.matching.sets.as_slice());
    matching.saturating_add(modules_in_steps(route.handle.as_slice()))
}

#[cycle(counting_routes)]
fn modules_in_steps(steps: &[Step]) -> usize
    ensures { Counts result (in_elements 0 (map step_modules steps.now)) }
{
    let mut found = 0usize;
    for step in steps {
        found = found.saturating_add(modules_in_step(step));
    }
    found
}

#[cycle(counting_routes)]
fn modules_in_step(step: &Step) -> usize
    ensures { Counts result (step_modules step.now) }
{
    match step {
        Step::Handler(_) => 1,
        Step::Subroute(inside) => modules_in_subroute(inside).saturating_add(1),
    }
}

#[cycle(counting_routes)]
fn modules_in_subroute(inside: &Subroute) -> usize
    ensures { Counts result (in_subroute inside.now) }
{
    let routes = modules_in_routes(inside.routes.as_slice());
    match &inside.errors {
        None => routes,
        Some(errors) => routes.saturating_add(modules_in_routes(errors.as_slice())),
    }
}

// ---- modules in matchers

#[cycle(counting_matchers)]
fn modules_in_sets(sets: &[MatcherSet]) -> usize
    ensures { Counts result (in_elements 0 (map set_modules sets.now)) }
{
    let mut found = 0usize;
    for set in sets {
        found = found.saturating_add(modules_in_set(set));
    }
    found
}

#[cycle(counting_matchers)]
fn modules_in_set(set: &MatcherSet) -> usize
    ensures { Counts result (set_modules set.now) }
{
    let mut found = 0usize;
    for matcher in set.matchers.as_slice() {
        found = found.saturating_add(modules_in_matcher(matcher));
    }
    found
}

#[cycle(counting_matchers)]
fn modules_in_matcher(matcher: &Matcher) -> usize
    ensures { Counts result (matcher_modules matcher.now) }
{
    modules_inside_matcher(matcher).saturating_add(1)
}

#[cycle(counting_matchers)]
fn modules_inside_matcher(matcher: &Matcher) -> usize
    ensures { Counts result (in_matcher matcher.now) }
{
    match matcher {
        Matcher::Not(none) => modules_in_sets(none.sets.as_slice()),
        _ => 0,
    }
}
