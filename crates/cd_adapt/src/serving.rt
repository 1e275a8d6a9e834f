//! The servers of sites.
ghost use Rattle.std.specs.Prelude.{◌≡◌, ◌≤◌, ◌<◌, ◌+◌, ◌*◌, ◌^◌, ◌==◌, ◌∷◌, ◌++◌, ℕ, List, [], length, map, filter, codes, decimal, IfOk, IfSome, IsUtf8, OnOk};
ghost use Rattle.std.specs.List.{All};
ghost use Rattle.cd_tree.specs.declared.tree.Tree as tree;
ghost use Rattle.cd_caddyfile.specs.Shape.{site_route, site_routes, all_groups, groups_of, server, shape, member, list, object, text_list};
ghost use Rattle.cd_caddyfile.specs.Sites.{Tests};
ghost use Rattle.cd_parts.specs.Measures.{measured, measured_entry, object_of};
ghost use Rattle.cd_adapt.specs.Serving.{AgreesAll, MOST_LINES, host_parts, site_route_of, server_of, servers_by, apps_of};
ghost use Rattle.cd_adapt.specs.Ports.{sites_of, told};
ghost use Rattle.cd_adapt.specs.Splitting.{site_made, IsWhole, size_of};
ghost use Rattle.cd_adapt.specs.Steps.{part};
ghost use Rattle.cd_parts.specs.declared.measured.Part.{Part as Ordered};
ghost use Rattle.cd_text.specs.ByKey.{by_key};

use crate::counting::count_groups;
use crate::laying::routes_of;
use crate::ports::{SitesByPort, ports_of, sites_by_port};
use crate::splitting::SiteLines;
use crate::steps::{add_part, list_with, subroute_of};
use cd_parts::{
    Measured, Part, SetTable, as_text, list_of, list_with as tree_list, measure, object_of,
    object_with, one_text,
};
use cd_text::{List, NoMemory, Octets, Text};
use cd_tree::{Shared, Tree};
use std::alloc::Global;

/// The configuration of sites.
pub fn shape_of(alloc: Global, table: &SetTable, sites: &[SiteLines]) -> Result<Measured, NoMemory>
    requires whole { All IsWhole sites.now }
    requires few { size_of sites.now ≤ MOST_LINES }
    ensures { IfOk result (λ made. (tests_of : ℕ → List ℕ → Tests) → AgreesAll table.now tests_of → made ≡ measured (shape (map (site_made tests_of) sites.now))) }
{
    if sites.is_empty() {
        return nothing(alloc);
    }
    let ports = ports_of(alloc, sites)?;
    let by_port = sites_by_port(alloc, sites)?;
    let servers = servers_of(alloc, table, &by_port, ports.as_slice())?;
    apps_of(alloc, servers)
}

// An object without members.
fn nothing(alloc: Global) -> Result<Measured, NoMemory>
    ensures { IfOk result (λ made. made ≡ measured (tree.Object [])) }
{
    let members = Shared::new(alloc, List::new(alloc))?;
    Ok(measure(Tree::Object(members)))
}

// The servers of ports, by the sites of each.
fn servers_of(
    alloc: Global,
    table: &SetTable,
    by_port: &SitesByPort<'_>,
    ports: &[u16],
) -> Result<List<Part>, NoMemory>
    requires whole { (port : ℕ) → All IsWhole (sites_of port by_port.now) }
    requires few { (port : ℕ) → size_of (sites_of port by_port.now) ≤ MOST_LINES }
    requires few_ports { length ports.now ≤ MOST_LINES }
    ensures { IfOk result (λ made. (tests_of : ℕ → List ℕ → Tests) → AgreesAll table.now tests_of →
        made ≡ map measured_entry (servers_by (λ port. map (site_made tests_of) (sites_of port by_port.now)) ports.now 0 0)) }
{
    let mut parts = List::new(alloc);
    let mut next = 0u64;
    for (number, port) in ports.iter().enumerate() {
        let served = server(alloc, table, by_port, *port, next)?;
        add_server(alloc, &mut parts, number, served.server)?;
        next = served.next;
    }
    Ok(parts)
}

fn add_server(
    alloc: Global,
    parts: &mut List<Part>,
    number: usize,
    server: Measured,
) -> Result<(), NoMemory>
    ensures { OnOk result (parts.new ≡ parts.old ++ part (codes "srv" ++ decimal number) server ∷ []) }
{
    let key = Text::from_string(format!(in alloc; "srv{number}")?);
    parts.push(Part { key, value: server })
}

/// A server, and the number after the last of its groups.
#[derive(Drop)]
struct Served {
    server: Measured,
    next: u64,
}

fn server(
    alloc: Global,
    table: &SetTable,
    by_port: &SitesByPort<'_>,
    port: u16,
    next: u64,
) -> Result<Served, NoMemory>
    requires whole { All IsWhole (sites_of port by_port.now) }
    requires few { next + size_of (sites_of port by_port.now) < 2 ^ 64 }
    ensures few { IfOk result (λ made. made.next ≤ next + size_of (sites_of port by_port.now)) }
    ensures server { IfOk result (λ made. (tests_of : ℕ → List ℕ → Tests) → AgreesAll table.now tests_of →
        made.server ≡ measured (server port (map (site_made tests_of) (sites_of port by_port.now)) next)) }
    ensures next { IfOk result (λ made. (tests_of : ℕ → List ℕ → Tests) → AgreesAll table.now tests_of →
        made.next ≡ next + all_groups (map (site_made tests_of) (sites_of port by_port.now))) }
{
    let mut routes = ServerRoutes {
        routes: List::new(alloc),
        next,
    };
    routes.add_port(alloc, table, by_port, port)?;
    let ServerRoutes { routes, next } = routes;
    let server = server_of(alloc, port, routes)?;
    Ok(Served { server, next })
}

fn server_of(alloc: Global, port: u16, routes: List<Measured>) -> Result<Measured, NoMemory>
    ensures { IfOk result (λ made. made ≡ server_of (58 ∷ decimal port) routes) }
{
    let address = Text::from_string(format!(in alloc; ":{port}")?);
    let listen = measure(one_text(alloc, address.as_str())?);
    let routes = list_of(alloc, routes)?;
    let mut parts = List::new(alloc);
    add_part(alloc, &mut parts, "listen", listen)?;
    add_part(alloc, &mut parts, "routes", routes)?;
    object_of(alloc, parts)
}

/// The routes of a server's sites.
#[derive(Drop)]
pub struct ServerRoutes {
    pub routes: List<Measured>,
    /// The first number of a group that no site has.
    pub next: u64,
}

impl ServerRoutes {
    // Those of the sites of a port.
    fn add_port(
        &mut self,
        alloc: Global,
        table: &SetTable,
        by_port: &SitesByPort<'_>,
        port: u16,
    ) -> Result<(), NoMemory>
        requires whole { All IsWhole (sites_of port by_port.now) }
        requires few { self.old.next + size_of (sites_of port by_port.now) < 2 ^ 64 }
        ensures few { OnOk result (self.new.next ≤ self.old.next + size_of (sites_of port by_port.now)) }
        ensures routes { OnOk result ((tests_of : ℕ → List ℕ → Tests) → AgreesAll table.now tests_of →
            self.new.routes ≡ self.old.routes ++ map measured (site_routes (map (site_made tests_of) (sites_of port by_port.now)) self.old.next)) }
        ensures next { OnOk result ((tests_of : ℕ → List ℕ → Tests) → AgreesAll table.now tests_of →
            self.new.next ≡ self.old.next + all_groups (map (site_made tests_of) (sites_of port by_port.now))) }
    {
        match by_port.get(&port) {
            Some(sites) => self.add_sites(alloc, table, sites.as_slice()),
            None => Ok(()),
        }
    }

    fn add_sites(
        &mut self,
        alloc: Global,
        table: &SetTable,
        sites: &[&SiteLines],
    ) -> Result<(), NoMemory>
        requires whole { All IsWhole (told sites.now) }
        requires few { self.old.next + size_of (told sites.now) < 2 ^ 64 }
        ensures few { OnOk result (self.new.next ≤ self.old.next + size_of (told sites.now)) }
        ensures routes { OnOk result ((tests_of : ℕ → List ℕ → Tests) → AgreesAll table.now tests_of →
            self.new.routes ≡ self.old.routes ++ map measured (site_routes (map (site_made tests_of) (told sites.now)) self.old.next)) }
        ensures next { OnOk result ((tests_of : ℕ → List ℕ → Tests) → AgreesAll table.now tests_of →
            self.new.next ≡ self.old.next + all_groups (map (site_made tests_of) (told sites.now))) }
    {
        for site in sites {
            self.add_site(alloc, table, site)?;
        }
        Ok(())
    }

    fn add_site(
        &mut self,
        alloc: Global,
        table: &SetTable,
        site: &SiteLines,
    ) -> Result<(), NoMemory>
        requires whole { IsWhole site.now }
        requires few { self.old.next + length site.now.lines < 2 ^ 64 }
        ensures few { OnOk result (self.new.next ≤ self.old.next + length site.now.lines) }
        ensures routes { OnOk result ((tests_of : ℕ → List ℕ → Tests) → AgreesAll table.now tests_of →
            self.new.routes ≡ self.old.routes ++ measured (site_route (site_made tests_of site.now) self.old.next) ∷ []) }
        ensures next { OnOk result ((tests_of : ℕ → List ℕ → Tests) → AgreesAll table.now tests_of →
            self.new.next ≡ self.old.next + groups_of (site_made tests_of site.now).block) }
    {
        let count = count_groups(alloc, site.lines.as_slice())?;
        let next = self.next + count;
        let routes = routes_of(alloc, table, site, next)?;
        let route = site_route_of(alloc, routes, &site.address.host)?;
        self.next = next;
        self.routes.push(route)
    }
}

fn site_route_of(
    alloc: Global,
    routes: List<Measured>,
    host: &Option<Octets>,
) -> Result<Measured, NoMemory>
    requires { IfSome host.now (λ text. IsUtf8 text) }
    ensures { IfOk result (λ made. made ≡ site_route_of routes host.now) }
{
    let does = subroute_of(alloc, routes)?;
    let handlers = list_with(alloc, does)?;
    let mut parts = List::new(alloc);
    add_part(alloc, &mut parts, "handle", handlers)?;
    add_host(alloc, &mut parts, host)?;
    add_part(alloc, &mut parts, "terminal", measure(Tree::Bool(true)))?;
    object_of(alloc, parts)
}

fn add_host(alloc: Global, parts: &mut List<Part>, host: &Option<Octets>) -> Result<(), NoMemory>
    requires { IfSome host.now (λ text. IsUtf8 text) }
    ensures { OnOk result (parts.new ≡ parts.old ++ host_parts host.now) }
{
    match host {
        None => Ok(()),
        Some(host) => {
            let set = host_set(alloc, host)?;
            add_part(alloc, parts, "match", set)
        }
    }
}

fn host_set(alloc: Global, host: &Octets) -> Result<Measured, NoMemory>
    requires { IsUtf8 host.now }
    ensures { IfOk result (λ made. made ≡ measured (list (object (member (codes "host") (text_list (host.now ∷ [])) ∷ []) ∷ []))) }
{
    let hosts = one_text(alloc, as_text(host.as_slice()))?;
    let set = object_with(alloc, "host", hosts)?;
    Ok(measure(tree_list(alloc, set)?))
}

fn apps_of(alloc: Global, servers: List<Part>) -> Result<Measured, NoMemory>
    ensures { IfOk result (λ made. made ≡ apps_of servers) }
{
    let servers = object_of(alloc, parts_by_key(servers)?)?;
    let http = object_of_one(alloc, "servers", servers)?;
    let apps = object_of_one(alloc, "http", http)?;
    object_of_one(alloc, "apps", apps)
}

fn object_of_one(alloc: Global, key: &str, value: Measured) -> Result<Measured, NoMemory>
    ensures { IfOk result (λ made. made ≡ object_of (part key.now value ∷ [])) }
{
    let mut parts = List::new(alloc);
    add_part(alloc, &mut parts, key, value)?;
    object_of(alloc, parts)
}

fn parts_by_key(parts: List<Part>) -> Result<List<Part>, NoMemory>
    ensures { IfOk result (λ sorted. sorted ≡ by_key (λ (p : Ordered). p.key) parts) }
{
    let mut sorted = parts.into_vec();
    sorted.sort_by(|one, other| one.key.cmp(&other.key))?;
    Ok(List::from_vec(sorted))
}
