//! What a configuration listens on, and its apps with that.
ghost use Rattle.std.specs.Prelude.{◌≡◌, ◌++◌, map, IfOk, OnOk};
ghost use Rattle.std.specs.List.{flat_map};
ghost use Rattle.cd_standard.specs.Plans.{addresses_of, admin_addresses, admin_plans, app_addresses, app_name, app_plan, apps_of, listen_addresses, server_addresses, text_addresses};

use crate::app::App;
use crate::configuration::Configuration;
use cd_admin::Admin;
use cd_legal::PlanApp;
use cd_outside::{Address, Key};
use cd_routes::{Listen, ListenText, Server};
use cd_text::{List, NoMemory, Text};
use cd_tree::Path;
use std::alloc::Global;

/// An address that is listened on.
#[derive(Debug, Drop)]
pub struct Listened {
    pub address: Address,
    /// Where its text is in the configuration.
    pub at: Path,
}

// ---- apps

/// The apps of a configuration, in the order in which they are started: the admin API first, unless it is disabled.
pub fn apps_of(alloc: Global, configuration: &Configuration) -> Result<List<PlanApp>, NoMemory>
    ensures { IfOk result (λ made. made ≡ apps_of configuration.now) }
{
    let mut plans = admin_plans(alloc, &configuration.admin)?;
    for app in configuration.apps.as_slice() {
        plans.push(app_plan(alloc, app)?)?;
    }
    Ok(plans)
}

fn admin_plans(alloc: Global, admin: &Admin) -> Result<List<PlanApp>, NoMemory>
    ensures { IfOk result (λ made. made ≡ admin_plans admin.now) }
{
    let mut plans = List::new(alloc);
    if admin.disabled {
        return Ok(plans);
    }
    let mut listened = List::new(alloc);
    add_admin(alloc, admin, &mut listened)?;
    plans.push(planned_app(alloc, "admin", listened.as_slice())?)?;
    Ok(plans)
}

fn app_plan(alloc: Global, app: &App) -> Result<PlanApp, NoMemory>
    ensures { IfOk result (λ made. made ≡ app_plan (app_name app.now) (app_addresses app.now)) }
{
    let mut listened = List::new(alloc);
    add_app(alloc, app, &mut listened)?;
    planned_app(alloc, app.name(), listened.as_slice())
}

fn planned_app(alloc: Global, name: &str, listened: &[Listened]) -> Result<PlanApp, NoMemory>
    ensures { IfOk result (λ made. made ≡ app_plan name.now listened.now) }
{
    let mut keys = List::new(alloc);
    for one in listened {
        keys.push(Key::Listen(one.address.copy(alloc)?))?;
    }
    Ok(PlanApp {
        name: Text::from_str(alloc, name)?,
        keys,
    })
}

// ---- addresses

/// All addresses that a configuration listens on, in the order in which they are opened.
pub fn addresses_of(
    alloc: Global,
    configuration: &Configuration,
) -> Result<List<Listened>, NoMemory>
    ensures { IfOk result (λ made. made ≡ addresses_of configuration.now) }
{
    let mut listened = List::new(alloc);
    add_admin(alloc, &configuration.admin, &mut listened)?;
    add_apps(alloc, configuration.apps.as_slice(), &mut listened)?;
    Ok(listened)
}

fn add_admin(alloc: Global, admin: &Admin, listened: &mut List<Listened>) -> Result<(), NoMemory>
    ensures { OnOk result (listened.new ≡ listened.old ++ admin_addresses admin.now) }
{
    if admin.disabled {
        return Ok(());
    }
    let at = Path::root(alloc)
        .member(alloc, "admin")?
        .member(alloc, "listen")?;
    listened.push(Listened {
        address: admin.listen.copy(alloc)?,
        at,
    })
}

fn add_apps(alloc: Global, apps: &[App], listened: &mut List<Listened>) -> Result<(), NoMemory>
    ensures { OnOk result (listened.new ≡ listened.old ++ flat_map app_addresses apps.now) }
{
    for app in apps {
        add_app(alloc, app, listened)?;
    }
    Ok(())
}

fn add_app(alloc: Global, app: &App, listened: &mut List<Listened>) -> Result<(), NoMemory>
    ensures { OnOk result (listened.new ≡ listened.old ++ app_addresses app.now) }
{
    match app {
        App::Echo(echo) => add_listen(alloc, &echo.listen, listened),
        App::Http(http) => add_servers(alloc, http.servers.as_slice(), listened),
    }
}

fn add_servers(
    alloc: Global,
    servers: &[Server],
    listened: &mut List<Listened>,
) -> Result<(), NoMemory>
    ensures { OnOk result (listened.new ≡ listened.old ++ flat_map server_addresses servers.now) }
{
    for server in servers {
        add_listen(alloc, &server.listen, listened)?;
    }
    Ok(())
}

fn add_listen(alloc: Global, listen: &Listen, listened: &mut List<Listened>) -> Result<(), NoMemory>
    ensures { OnOk result (listened.new ≡ listened.old ++ listen_addresses listen.now) }
{
    for text in listen.texts.as_slice() {
        add_text(alloc, text, listened)?;
    }
    Ok(())
}

fn add_text(alloc: Global, text: &ListenText, listened: &mut List<Listened>) -> Result<(), NoMemory>
    ensures { OnOk result (listened.new ≡ listened.old ++ text_addresses text.now) }
{
    let addresses = text.range.list(alloc)?;
    for address in addresses.as_slice() {
        listened.push(Listened {
            address: address.copy(alloc)?,
            at: text.at.copy(alloc)?,
        })?;
    }
    Ok(())
}
