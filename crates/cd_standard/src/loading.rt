//! What a tree comes to as a configuration.
ghost use Rattle.std.specs.Prelude.{◌≡◌, IfOk};
ghost use Rattle.cd_text.specs.Gives.{Gives};
ghost use Rattle.cd_ids.specs.Ids.{id_fault};
ghost use Rattle.cd_standard.specs.Loading.{accepted, loaded, nothing_said, of_ids, of_object, of_settings, planned};

use crate::configuration::Configuration;
use crate::judging::judge;
use crate::listening::apps_of;
use crate::planning::modules_of;
use cd_admin::Admin;
use cd_ids::IdFault;
use cd_legal::Plan;
use cd_log::Logs;
use cd_module::{LoadFault, LoadKind, Settings};
use cd_text::{List, NoMemory};
use cd_tree::{Path, Place, Tree};
use std::alloc::Global;

/// A configuration without a fault, and what it plans.
#[derive(Drop)]
pub struct Configured {
    pub configuration: Configuration,
    pub plan: Plan,
}

/// Loads a configuration: reads it and plans it, or gives its first fault. Null says nothing, and is fine.
///
/// The order of faults: a tree that is no object; its ids, where a repeated id has both paths; its settings, as they are read
/// (Caddy, JSON Config Structure); the first named route that leads to itself, of the first such server; too many modules,
/// addresses, servers, subroutes with errors in a server, and too much weight of a server's routes; an address that is listened on
/// twice, at the second place in the order in which addresses are opened, the admin API's first.
#[tactic(auto, unfolding(crate::specs::Loading::loaded))]
pub fn load(alloc: Global, tree: &Tree) -> Result<Configured, LoadFault>
    ensures { Gives LoadFault.NoMemory result (loaded tree.now) }
{
    match tree {
        Tree::Null => Ok(load_nothing(alloc)?),
        Tree::Object(_) => load_object(alloc, tree),
        _ => Err(LoadFault::refused(alloc, LoadKind::WrongKind, Path::root(alloc))),
    }
}

fn load_nothing(alloc: Global) -> Result<Configured, NoMemory>
    ensures { IfOk result (λ made. made ≡ planned nothing_said) }
{
    let configuration = Configuration {
        admin: Admin::usual(alloc)?,
        apps: List::new(alloc),
        logs: Logs::none(alloc),
    };
    with_plan(alloc, configuration)
}

fn load_object(alloc: Global, tree: &Tree) -> Result<Configured, LoadFault>
    ensures { Gives LoadFault.NoMemory result (of_object tree.now) }
{
    check_ids(alloc, tree)?;
    load_settings(alloc, tree)
}

fn load_settings(alloc: Global, tree: &Tree) -> Result<Configured, LoadFault>
    ensures { Gives LoadFault.NoMemory result (of_settings tree.now) }
{
    let configuration = Configuration::read(alloc, tree, &Place::top())?;
    accept(alloc, configuration)
}

fn check_ids(alloc: Global, tree: &Tree) -> Result<(), LoadFault>
    ensures { Gives LoadFault.NoMemory result (of_ids (id_fault tree.now)) }
{
    match cd_ids::check(alloc, tree) {
        Ok(()) => Ok(()),
        Err(IdFault::Repeated(id, first, second)) => {
            Err(LoadFault::repeated_id(alloc, id.as_str(), &first, &second))
        }
        Err(IdFault::BadKind(at)) => Err(LoadFault::refused(alloc, LoadKind::WrongKind, at)),
        Err(IdFault::NoMemory) => Err(LoadFault::NoMemory),
    }
}

// The plan is made once nothing is too many.
fn accept(alloc: Global, configuration: Configuration) -> Result<Configured, LoadFault>
    ensures { Gives LoadFault.NoMemory result (accepted configuration) }
{
    judge(alloc, &configuration)?;
    Ok(with_plan(alloc, configuration)?)
}

fn with_plan(alloc: Global, configuration: Configuration) -> Result<Configured, NoMemory>
    ensures { IfOk result (λ made. made ≡ planned configuration) }
{
    let modules = modules_of(alloc, &configuration)?;
    let apps = apps_of(alloc, &configuration)?;
    Ok(Configured {
        configuration,
        plan: Plan { modules, apps },
    })
}
