//! The modules and the apps of a configuration.
ghost use Rattle.std.specs.Prelude.{◌≡◌, ◌∷◌, ◌++◌, [], codes, map, IfOk, OnOk};
ghost use Rattle.std.specs.List.{flat_map};
ghost use Rattle.cd_tree.specs.Path.{◌▸◌};
ghost use Rattle.cd_log.specs.Logging.{key_of, output_name, writer_id};
ghost use Rattle.cd_standard.specs.Plans.{app_name, app_modules, inside_app, modules_of, writer_module};

use crate::app::App;
use crate::configuration::Configuration;
use crate::found::{Found, module_id};
use crate::walking::{add_module, add_servers};
use cd_legal::PlanModule;
use cd_log::{Log, Logs, Writer};
use cd_text::{List, NoMemory};
use cd_tree::{Place, SharedText};
use std::alloc::Global;

impl App {
    /// The name of the app, which is the id of its module.
    pub fn name(&self) -> &'static str
        ensures { result.now ≡ app_name self.now }
    {
        match self {
            App::Echo(_) => "echo",
            App::Http(_) => "http",
        }
    }
}

/// The modules of a configuration, in the order in which instances are made.
pub fn modules_of(
    alloc: Global,
    configuration: &Configuration,
) -> Result<List<PlanModule>, NoMemory>
    ensures { IfOk result (λ made. made ≡ modules_of configuration.now) }
{
    let mut out = Found::new(alloc)?;
    let top = Place::top();
    add_all_writers(alloc, &configuration.logs, &top.member("logging"), &mut out)?;
    let apps = configuration.apps.as_slice();
    add_apps(alloc, apps, &top.member("apps"), &mut out)?;
    Ok(out.into_list())
}

// ---- writers

fn add_all_writers(
    alloc: Global,
    logs: &Logs,
    at: &Place<'_>,
    out: &mut Found,
) -> Result<(), NoMemory>
    ensures { OnOk result (out.new ≡ out.old ++ map (writer_module (at.now ▸ codes "logs")) logs.now.logs) }
{
    let base = at.member("logs").to_base(alloc)?;
    add_writers(alloc, logs.logs.as_slice(), &base.place(), out)
}

fn add_writers(alloc: Global, logs: &[Log], at: &Place<'_>, out: &mut Found) -> Result<(), NoMemory>
    ensures { OnOk result (out.new ≡ out.old ++ map (writer_module at.now) logs.now) }
{
    for log in logs {
        out.push(writer_module(alloc, log, at)?)?;
    }
    Ok(())
}

fn writer_module(alloc: Global, log: &Log, at: &Place<'_>) -> Result<PlanModule, NoMemory>
    ensures { IfOk result (λ made. made ≡ writer_module at.now log.now) }
{
    let here = at.member(log.name.as_str());
    planned_writer(alloc, &log.writer, &here.member("writer"))
}

fn planned_writer(alloc: Global, writer: &Writer, at: &Place<'_>) -> Result<PlanModule, NoMemory>
    ensures { IfOk result (λ made. made ≡ record {
      name = writer_id (output_name writer.now);
      at = at.now;
      keys = key_of writer.now ∷ [];
    }) }
{
    let mut keys = List::new(alloc);
    keys.push(writer.key(alloc)?)?;
    let name = module_id(alloc, "caddy.logging.writers.", writer.output())?;
    Ok(PlanModule {
        name,
        at: at.to_spot(alloc)?,
        keys,
    })
}

// ---- apps

fn add_apps(alloc: Global, apps: &[App], at: &Place<'_>, out: &mut Found) -> Result<(), NoMemory>
    ensures { OnOk result (out.new ≡ out.old ++ flat_map (app_modules at.now) apps.now) }
{
    for app in apps {
        add_app(alloc, app, at, out)?;
    }
    Ok(())
}

fn add_app(alloc: Global, app: &App, at: &Place<'_>, out: &mut Found) -> Result<(), NoMemory>
    ensures { OnOk result (out.new ≡ out.old ++ app_modules at.now app.now) }
{
    let name = SharedText::from_str(alloc, app.name())?;
    let here = at.named(&name);
    add_module(alloc, name.share()?, &here, out)?;
    add_inside(alloc, app, &here, out)
}

// What is inside an app.
fn add_inside(alloc: Global, app: &App, at: &Place<'_>, out: &mut Found) -> Result<(), NoMemory>
    ensures { OnOk result (out.new ≡ out.old ++ inside_app app.now at.now) }
{
    match app {
        App::Echo(_) => Ok(()),
        App::Http(http) => {
            let base = at.member("servers").to_base(alloc)?;
            add_servers(alloc, http.servers.as_slice(), &base.place(), out)
        }
    }
}
