//! What is said of a whole configuration: that no named route leads to itself, its limits, and that no address is listened on twice.
ghost use Rattle.std.specs.Prelude.{◌≡◌, ◌≢◌, [], length};
ghost use Rattle.cd_text.specs.Gives.{Gives};
ghost use Rattle.cd_addr.specs.Addresses.{is_address, written};
ghost use Rattle.cd_module.specs.Faults.{repeated_address, within};
ghost use Rattle.cd_text.specs.Steps.{◌▷◌};
ghost use Rattle.cd_standard.specs.Loading.{HaveNoCycle, all_distinct, each_checked, is_among, judged, limits, servers_of};
ghost use Rattle.cd_standard.specs.Plans.{addresses_of, modules_of};

use crate::app::App;
use crate::checks::{Check, check_apps};
use crate::configuration::Configuration;
use crate::counting::{count_addresses, count_modules, count_servers};
use crate::listening::{Listened, addresses_of};
use cd_addr::write;
use cd_module::{Limit, LoadFault};
use cd_outside::Address;
use std::alloc::Global;

/// The first fault of the whole of a configuration. Named routes come first, since nothing is counted where one leads to itself.
/// Modules and addresses are counted, and addresses are written out only where there are not too many.
pub fn judge(alloc: Global, configuration: &Configuration) -> Result<(), LoadFault>
    ensures { Gives LoadFault.NoMemory result (judged configuration.now) }
{
    check_named_routes(alloc, configuration)?;
    check_limits(alloc, configuration)?;
    check_addresses(alloc, configuration)
}

// ---- named routes

fn check_named_routes(alloc: Global, configuration: &Configuration) -> Result<(), LoadFault>
    ensures { Gives LoadFault.NoMemory result (each_checked Check.NamedRoutes (servers_of configuration.now)) }
{
    check_apps(alloc, configuration.apps.as_slice(), Check::NamedRoutes)
}

// ---- limits

fn check_limits(alloc: Global, configuration: &Configuration) -> Result<(), LoadFault>
    requires { HaveNoCycle (servers_of configuration.now) }
    ensures { Gives LoadFault.NoMemory result (limits configuration.now) }
{
    check_count_of_modules(alloc, configuration)?;
    check_count_of_addresses(alloc, configuration)?;
    check_count_of_servers(alloc, configuration)?;
    check_routes(alloc, configuration)
}

// How much there is in the routes of servers.
fn check_routes(alloc: Global, configuration: &Configuration) -> Result<(), LoadFault>
    requires { HaveNoCycle (servers_of configuration.now) }
    ensures { Gives LoadFault.NoMemory result (each_checked Check.ErrorSubroutes (servers_of configuration.now) ▷ λ _. each_checked Check.ExpandedRoutes (servers_of configuration.now)) }
{
    let apps = configuration.apps.as_slice();
    check_apps(alloc, apps, Check::ErrorSubroutes)?;
    check_apps(alloc, apps, Check::ExpandedRoutes)
}

#[tactic(auto, using(crate::proofs::Counts::within_counted))]
fn check_count_of_modules(alloc: Global, configuration: &Configuration) -> Result<(), LoadFault>
    ensures { Gives LoadFault.NoMemory result (within Limit.Modules (length (modules_of configuration.now))) }
{
    Limit::Modules.allows(alloc, count_modules(configuration))
}

#[tactic(auto, using(crate::proofs::Counts::within_counted))]
fn check_count_of_addresses(alloc: Global, configuration: &Configuration) -> Result<(), LoadFault>
    ensures { Gives LoadFault.NoMemory result (within Limit.Addresses (length (addresses_of configuration.now))) }
{
    Limit::Addresses.allows(alloc, count_addresses(configuration))
}

#[tactic(auto, using(crate::proofs::Counts::within_counted))]
fn check_count_of_servers(alloc: Global, configuration: &Configuration) -> Result<(), LoadFault>
    ensures { Gives LoadFault.NoMemory result (within Limit.Servers (length (servers_of configuration.now))) }
{
    Limit::Servers.allows(alloc, count_servers(configuration))
}

// ---- addresses

fn check_addresses(alloc: Global, configuration: &Configuration) -> Result<(), LoadFault>
    ensures { Gives LoadFault.NoMemory result (all_distinct [] (addresses_of configuration.now)) }
{
    let listened = addresses_of(alloc, configuration)?;
    check_distinct(alloc, listened.as_slice())
}

fn check_distinct(alloc: Global, listened: &[Listened]) -> Result<(), LoadFault>
    ensures { Gives LoadFault.NoMemory result (all_distinct [] listened.now) }
{
    for (place, one) in listened.iter().enumerate() {
        if is_among(&one.address, &listened[..place]) {
            return Err(repeated(alloc, one));
        }
    }
    Ok(())
}

fn is_among(address: &Address, listened: &[Listened]) -> bool
    ensures { result ≡ is_among address.now listened.now }
{
    for one in listened {
        if is_address(address, &one.address) {
            return true;
        }
    }
    false
}

/// Whether two addresses have the same host and the same port. It takes no memory.
pub fn is_address(one: &Address, other: &Address) -> bool
    ensures { result ≡ is_address one.now other.now }
{
    one.host.equals(other.host.as_str()) && one.port == other.port
}

fn repeated(alloc: Global, one: &Listened) -> LoadFault
    ensures { result ≢ LoadFault.NoMemory → result ≡ repeated_address (written one.now.address) one.now.at }
{
    match write(alloc, &one.address) {
        Ok(address) => LoadFault::repeated_address(alloc, address.as_str(), &one.at),
        Err(_) => LoadFault::NoMemory,
    }
}
