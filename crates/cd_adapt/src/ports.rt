//! The ports of sites, and the sites of each port. Ports are looked up in a set and in a map, so many ports cost no more than as many
//! sites of one port.
ghost use Rattle.std.specs.Prelude.{◌≡◌, ◌≤◌, ◌++◌, ℕ, List, [], length, map, filter, IfOk, OnOk, true, false};
ghost use Rattle.cd_caddyfile.specs.Shape.{ports_after};
ghost use Rattle.cd_caddyfile.specs.Sites.{Tests};
ghost use Rattle.cd_adapt.specs.Ports.{AreMet, and_port, and_site, has_host, is_served, sites_of};
ghost use Rattle.cd_adapt.specs.Splitting.{site_made, size_of};

use crate::splitting::SiteLines;
use cd_text::{List, NoMemory};
use std::alloc::Global;
use std::collections::{BTreeMap, BTreeSet};

/// The sites of each port, those with a host first.
pub type SitesByPort<'a> = BTreeMap<u16, List<&'a SiteLines>>;

/// The ports of sites, in the order in which they first occur.
pub fn ports_of(alloc: Global, sites: &[SiteLines]) -> Result<List<u16>, NoMemory>
    ensures few { IfOk result (λ made. length made ≤ size_of sites.now) }
    ensures ports { IfOk result (λ made. (tests_of : ℕ → List ℕ → Tests) → made ≡ ports_after [] (map (site_made tests_of) sites.now)) }
{
    let mut met = BTreeSet::new(alloc);
    let mut ports = List::new(alloc);
    for site in sites {
        add_port(&mut met, &mut ports, site.address.port)?;
    }
    Ok(ports)
}

// Adds a port, unless it is there.
fn add_port(met: &mut BTreeSet<u16>, ports: &mut List<u16>, port: u16) -> Result<(), NoMemory>
    requires met { AreMet ports.old met.old }
    ensures met { OnOk result (AreMet ports.new met.new) }
    ensures ports { OnOk result (ports.new ≡ and_port port ports.old) }
{
    if met.contains(&port) {
        return Ok(());
    }
    met.insert(port)?;
    ports.push(port)
}

/// The sites of each port.
pub fn sites_by_port<'a>(alloc: Global, sites: &'a [SiteLines]) -> Result<SitesByPort<'a>, NoMemory>
    ensures { IfOk result (λ made. (port : ℕ) → sites_of port made ≡ filter (is_served port true) sites.now ++ filter (is_served port false) sites.now) }
{
    let mut by_port = BTreeMap::new(alloc);
    add_sites(alloc, &mut by_port, sites, true)?;
    add_sites(alloc, &mut by_port, sites, false)?;
    Ok(by_port)
}

// Adds the sites with a host, or those without.
fn add_sites<'a>(
    alloc: Global,
    by_port: &mut SitesByPort<'a>,
    sites: &'a [SiteLines],
    with_host: bool,
) -> Result<(), NoMemory>
    ensures { OnOk result ((port : ℕ) → sites_of port by_port.new ≡ sites_of port by_port.old ++ filter (is_served port with_host) sites.now) }
{
    for site in sites {
        if has_host(with_host, site) {
            add_site(alloc, by_port, site)?;
        }
    }
    Ok(())
}

// Adds a site to those of its port, which are taken out of the map meanwhile.
fn add_site<'a>(
    alloc: Global,
    by_port: &mut SitesByPort<'a>,
    site: &'a SiteLines,
) -> Result<(), NoMemory>
    ensures { OnOk result ((port : ℕ) → sites_of port by_port.new ≡ and_site port site.now (sites_of port by_port.old)) }
{
    let port = site.address.port;
    let mut sites = match by_port.remove(&port) {
        Some(sites) => sites,
        None => List::new(alloc),
    };
    sites.push(site)?;
    by_port.insert(port, sites)?;
    Ok(())
}

// Whether the site has a host, or has none.
fn has_host(with_host: bool, site: &SiteLines) -> bool
    ensures { result ≡ has_host with_host site.now }
{
    site.address.host.is_some() == with_host
}
