//! What settings say of themselves: the addresses of a `listen`, the names of a route's modules, and how much there is in the routes
//! of a server.
ghost use Rattle.cd_routes.specs.Invoking.{HasNoCycle};

use crate::servers::{refused, server_of};
use cd_addr::write;
use cd_match::MatcherSet;
use cd_module::{LoadFault, Settings};
use cd_routes::{Listen, ListenText, Route, Server, read_route};
use cd_rows::{Outcome, RowFault, bytes_at, needed, only, says, tree_of};
use cd_text::{NoMemory, Octets, decimal};
use cd_tree::{Place, Tree};
use std::alloc::Global;

/// Each address, a space, and where its text is in the list; each on a line.
pub fn listen_outcome(alloc: Global, row: &Tree) -> Result<Outcome, RowFault> {
    only(alloc, row, "listen found refused")?;
    let value = needed(alloc, row, "listen")?;
    match Listen::read(alloc, value, &Place::top()) {
        Ok(listen) => Ok(found(addresses_of(alloc, &listen)?)),
        Err(LoadFault::Refused(refusal)) => refused(alloc, &refusal),
        Err(LoadFault::NoMemory) => Err(RowFault::NoMemory),
    }
}

fn found(bytes: Octets) -> Outcome {
    Outcome {
        member: "found",
        bytes,
    }
}

fn addresses_of(alloc: Global, listen: &Listen) -> Result<Octets, NoMemory> {
    let mut out = Octets::new(alloc);
    for text in listen.texts.as_slice() {
        put_addresses(alloc, text, &mut out)?;
    }
    Ok(out)
}

fn put_addresses(alloc: Global, text: &ListenText, out: &mut Octets) -> Result<(), NoMemory> {
    let at = text.at.to_text(alloc)?;
    let addresses = text.range.list(alloc)?;
    for address in addresses.as_slice() {
        let address = write(alloc, address)?;
        out.append(address.as_str().as_bytes())?;
        out.push(b' ')?;
        out.append(at.as_str().as_bytes())?;
        out.push(b'\n')?;
    }
    Ok(())
}

/// The names of a route's matchers, set by set, and then those of its handlers, each after a slash.
pub fn names_outcome(alloc: Global, row: &Tree) -> Result<Outcome, RowFault> {
    only(alloc, row, "names_in found refused")?;
    let value = needed(alloc, row, "names_in")?;
    match read_route(alloc, &[], value, &Place::top()) {
        Ok(route) => Ok(found(names_of(alloc, &route)?)),
        Err(LoadFault::Refused(refusal)) => refused(alloc, &refusal),
        Err(LoadFault::NoMemory) => Err(RowFault::NoMemory),
    }
}

fn names_of(alloc: Global, route: &Route) -> Result<Octets, NoMemory> {
    let mut out = Octets::new(alloc);
    for set in route.matching.sets.as_slice() {
        put_matchers(set, &mut out)?;
    }
    for step in route.handle.as_slice() {
        put_name(step.name(), &mut out)?;
    }
    Ok(out)
}

fn put_matchers(set: &MatcherSet, out: &mut Octets) -> Result<(), NoMemory> {
    for matcher in set.matchers.as_slice() {
        put_name(matcher.name(), out)?;
    }
    Ok(())
}

fn put_name(name: &str, out: &mut Octets) -> Result<(), NoMemory> {
    out.push(b'/')?;
    out.append(name.as_bytes())
}

/// How many subroutes with errors the server of this text has, at each `invoke` with those of its named route.
pub fn error_subroutes_outcome(alloc: Global, row: &Tree) -> Result<Outcome, RowFault> {
    only(alloc, row, "error_subroutes found refused")?;
    let text = bytes_at(alloc, row, "error_subroutes")?;
    count_outcome(alloc, text.as_slice(), Counted::ErrorSubroutes)
}

/// What the routes and the errors of the server of this text weigh.
pub fn expanded_routes_outcome(alloc: Global, row: &Tree) -> Result<Outcome, RowFault> {
    only(alloc, row, "expanded_routes found refused")?;
    let text = bytes_at(alloc, row, "expanded_routes")?;
    count_outcome(alloc, text.as_slice(), Counted::ExpandedRoutes)
}

// What is counted.
#[derive(Clone, Copy)]
enum Counted {
    ErrorSubroutes,
    ExpandedRoutes,
}

fn count_outcome(alloc: Global, text: &[u8], counted: Counted) -> Result<Outcome, RowFault> {
    let tree = tree_of(alloc, text)?;
    match server_of(alloc, &tree) {
        Ok(server) => counted_outcome(alloc, &server, counted),
        Err(LoadFault::Refused(refusal)) => refused(alloc, &refusal),
        Err(LoadFault::NoMemory) => Err(RowFault::NoMemory),
    }
}

// Nothing is counted where a named route leads to itself: then its name is shown.
fn counted_outcome(alloc: Global, server: &Server, counted: Counted) -> Result<Outcome, RowFault> {
    match server.first_in_cycle(alloc)? {
        Some(name) => {
            let text = format!(in alloc; "cycle {name}")?;
            says(alloc, "found", text.as_str())
        }
        None => {
            let count = decimal(alloc, count_of(alloc, server, counted)? as u64)?;
            says(alloc, "found", count.as_str())
        }
    }
}

fn count_of(alloc: Global, server: &Server, counted: Counted) -> Result<usize, NoMemory>
    requires { HasNoCycle (server.now).named }
{
    match counted {
        Counted::ErrorSubroutes => server.error_subroutes(alloc),
        Counted::ExpandedRoutes => server.expanded_routes(alloc),
    }
}
