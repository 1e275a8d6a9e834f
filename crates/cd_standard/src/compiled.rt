//! A configuration as its requests are answered: each server with its routes laid out.
ghost use Rattle.std.specs.Prelude.{◌≡◌, map, IfOk};
ghost use Rattle.std.specs.List.{flat_map};
ghost use Rattle.cd_routes.specs.Invoking.{HasNoCycle};
ghost use Rattle.cd_module_set.specs.Acts.{DoAlike};
ghost use Rattle.cd_standard.specs.Acting.{acts_of};
ghost use Rattle.cd_standard.specs.Compiled.{acts_compiled, acts_compiled_app, acts_of_app, acts_of_server, compiled_acts};
ghost use Rattle.cd_standard.specs.Loading.{HaveNoCycle, app_servers, servers_of};

use crate::app::App;
use crate::configuration::Configuration;
use crate::echo::Echo;
use crate::http::Http;
use cd_admin::Admin;
use cd_chain::Chain;
use cd_log::Logs;
use cd_routes::{Listen, Server};
use cd_text::{List, NoMemory, Text};
use std::alloc::Global;

/// A configuration that may run.
#[derive(Debug, Drop)]
pub struct Compiled {
    pub admin: Admin,
    /// In the order of the configuration's apps.
    pub apps: List<CompiledApp>,
    pub logs: Logs,
}

/// An app of a configuration that may run.
#[derive(Debug, Drop)]
pub enum CompiledApp {
    Echo(Echo),
    /// The servers of `http`, by rising name.
    Http(List<CompiledServer>),
}

/// A server whose routes, error routes and named routes are one chain.
#[derive(Debug, Drop)]
pub struct CompiledServer {
    /// Its name among the servers.
    pub name: Text,
    pub listen: Listen,
    pub chain: Chain,
    /// Whether its requests are logged.
    pub logs: bool,
}

impl Compiled {
    /// Lays out the routes of all servers, which move into their chains. No named route may lead to itself, which `load` has
    /// checked of what it gives.
    pub fn compile(alloc: Global, configuration: Configuration) -> Result<Compiled, NoMemory>
        requires { HaveNoCycle (servers_of configuration) }
        ensures { IfOk result (λ compiled. DoAlike (compiled_acts compiled) (acts_of configuration)) }
    {
        let Configuration { admin, apps, logs } = configuration;
        let apps = compile_apps(alloc, apps)?;
        Ok(Compiled { admin, apps, logs })
    }
}

#[tactic(auto, using(crate::proofs::Alike::one_alike, crate::proofs::Checked::first_app_has_none, crate::proofs::Checked::other_apps_have_none))]
fn compile_apps(alloc: Global, apps: List<App>) -> Result<List<CompiledApp>, NoMemory>
    requires { HaveNoCycle (flat_map app_servers apps) }
    ensures { IfOk result (λ made. map acts_compiled_app made ≡ map acts_of_app apps) }
{
    let mut made = List::new(alloc);
    for app in apps.into_vec() {
        made.push(compile_app(alloc, app)?)?;
    }
    Ok(made)
}

fn compile_app(alloc: Global, app: App) -> Result<CompiledApp, NoMemory>
    requires { HaveNoCycle (app_servers app) }
    ensures { IfOk result (λ made. acts_compiled_app made ≡ acts_of_app app) }
{
    match app {
        App::Echo(echo) => Ok(CompiledApp::Echo(echo)),
        App::Http(http) => {
            let Http { servers } = http;
            let servers = compile_servers(alloc, servers)?;
            Ok(CompiledApp::Http(servers))
        }
    }
}

#[tactic(auto, using(crate::proofs::Alike::one_alike, crate::proofs::Checked::first_has_none, crate::proofs::Checked::others_have_none))]
fn compile_servers(alloc: Global, servers: List<Server>) -> Result<List<CompiledServer>, NoMemory>
    requires { HaveNoCycle servers }
    ensures { IfOk result (λ made. map acts_compiled made ≡ map acts_of_server servers) }
{
    let mut made = List::new(alloc);
    for server in servers.into_vec() {
        made.push(compile_server(alloc, server)?)?;
    }
    Ok(made)
}

fn compile_server(alloc: Global, server: Server) -> Result<CompiledServer, NoMemory>
    requires { HasNoCycle server.named }
    ensures { IfOk result (λ made. acts_compiled made ≡ acts_of_server server) }
{
    let Server {
        name,
        listen,
        routes,
        errors,
        named,
        logs,
    } = server;
    let chain = Chain::compile(alloc, routes, errors, named)?;
    Ok(CompiledServer {
        name,
        listen,
        chain,
        logs,
    })
}
