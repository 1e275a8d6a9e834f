//! What is checked of each server of a configuration, one after another.
ghost use Rattle.std.specs.Prelude.{◌≡◌, ◌≢◌, ◌∷◌, []};
ghost use Rattle.std.specs.List.{flat_map};
ghost use Rattle.cd_text.specs.Gives.{Gives};
ghost use Rattle.cd_module.specs.Faults.{refused, within};
ghost use Rattle.cd_routes.specs.Counting.{error_subroutes, expanded_routes};
ghost use Rattle.cd_routes.specs.Invoking.{HasNoCycle, first_in_cycle};
ghost use Rattle.cd_standard.specs.Checking.{MayCheck};
ghost use Rattle.cd_standard.specs.Loading.{app_servers, checked, cycle_fault, each_checked, named_route_at};

use crate::app::App;
use cd_module::{Limit, LoadFault, LoadKind};
use cd_routes::Server;
use cd_tree::Place;
use std::alloc::Global;

/// What is checked of a server.
#[derive(Clone, Copy, Debug, PartialEq, Eq)]
pub enum Check {
    /// No named route leads to itself.
    NamedRoutes,
    /// No more subroutes have errors than may.
    ErrorSubroutes,
    /// Its routes weigh no more than they may.
    ExpandedRoutes,
}

/// The first fault of the servers of these apps. What named routes lead to is checked before anything is counted.
pub fn check_apps(alloc: Global, apps: &[App], check: Check) -> Result<(), LoadFault>
    requires { MayCheck check (flat_map app_servers apps.now) }
    ensures { Gives LoadFault.NoMemory result (each_checked check (flat_map app_servers apps.now)) }
{
    for app in apps {
        check_app(alloc, app, check)?;
    }
    Ok(())
}

fn check_app(alloc: Global, app: &App, check: Check) -> Result<(), LoadFault>
    requires { MayCheck check (app_servers app.now) }
    ensures { Gives LoadFault.NoMemory result (each_checked check (app_servers app.now)) }
{
    match app {
        App::Echo(_) => Ok(()),
        App::Http(http) => check_servers(alloc, http.servers.as_slice(), check),
    }
}

fn check_servers(alloc: Global, servers: &[Server], check: Check) -> Result<(), LoadFault>
    requires { MayCheck check servers.now }
    ensures { Gives LoadFault.NoMemory result (each_checked check servers.now) }
{
    for server in servers {
        check_server(alloc, server, check)?;
    }
    Ok(())
}

fn check_server(alloc: Global, server: &Server, check: Check) -> Result<(), LoadFault>
    requires { MayCheck check (server.now ∷ []) }
    ensures { Gives LoadFault.NoMemory result (checked check server.now) }
{
    match check {
        Check::NamedRoutes => check_named_routes(alloc, server),
        Check::ErrorSubroutes => check_error_subroutes(alloc, server),
        Check::ExpandedRoutes => check_expanded_routes(alloc, server),
    }
}

fn check_named_routes(alloc: Global, server: &Server) -> Result<(), LoadFault>
    ensures { Gives LoadFault.NoMemory result (cycle_fault server.now (first_in_cycle (server.now).named)) }
{
    match server.first_in_cycle(alloc)? {
        None => Ok(()),
        Some(name) => Err(cycle_at(alloc, server, name)),
    }
}

fn cycle_at(alloc: Global, server: &Server, name: &str) -> LoadFault
    ensures { result ≢ LoadFault.NoMemory → result ≡ refused LoadKind.NamedCycle (named_route_at server.now name.now) }
{
    let top = Place::top();
    let apps = top.member("apps");
    let http = apps.member("http");
    let servers = http.member("servers");
    let this = servers.member(server.name.as_str());
    let named = this.member("named_routes");
    LoadFault::at(alloc, LoadKind::NamedCycle, &named.member(name))
}

#[tactic(auto, using(crate::proofs::Counts::within_counted))]
fn check_error_subroutes(alloc: Global, server: &Server) -> Result<(), LoadFault>
    requires { HasNoCycle (server.now).named }
    ensures { Gives LoadFault.NoMemory result (within Limit.ErrorSubroutes (error_subroutes server.now)) }
{
    let count = server.error_subroutes(alloc)?;
    Limit::ErrorSubroutes.allows(alloc, count)
}

#[tactic(auto, using(crate::proofs::Counts::within_counted))]
fn check_expanded_routes(alloc: Global, server: &Server) -> Result<(), LoadFault>
    requires { HasNoCycle (server.now).named }
    ensures { Gives LoadFault.NoMemory result (within Limit.ExpandedRoutes (expanded_routes server.now)) }
{
    let count = server.expanded_routes(alloc)?;
    Limit::ExpandedRoutes.allows(alloc, count)
}
