ghost use Rattle.cd_text.specs.Gives.{Gives};
ghost use Rattle.cd_module.specs.declared.fault.LoadFault.{LoadFault};
ghost use Rattle.cd_routes.specs.Server.{server, server_members, timeouts, protocols};

use crate::listen::Listen;
use crate::named::{KnownName, NamedRoute, known_names, read_named_member};
use crate::reading::{read_errors_member, read_routes_member};
use crate::route::Route;
use cd_module::{
    LoadFault, Named, NumberOrText, UnreadList, UnreadObject, fields_of, needed, optional,
};
use cd_text::{List, Text};
use cd_tree::{Fields, Place, Tree};
use std::alloc::Global;

/// The settings of a server (Caddy, JSON Config Structure, `http.servers`).
#[derive(Debug, Drop)]
pub struct Server {
    /// Its name among the servers.
    pub name: Text,
    pub listen: Listen,
    pub routes: List<Route>,
    /// What is done where the routes fail.
    pub errors: Option<List<Route>>,
    /// What handlers invoke, by rising name.
    pub named: List<NamedRoute>,
    /// Whether its requests are logged, which is where it has a `logs`.
    pub logs: bool,
}

// Times and sizes, which have no effect so far.
#[tactic(auto, unfolding(crate::specs::Server::timeouts))]
fn read_timeouts(alloc: Global, fields: &Fields<'_>, at: &Place<'_>) -> Result<(), LoadFault>
    ensures { Gives LoadFault.NoMemory result (timeouts fields.now.members.now at.now) }
{
    let _ = optional::<NumberOrText>(alloc, fields, at, "read_timeout")?;
    let _ = optional::<NumberOrText>(alloc, fields, at, "read_header_timeout")?;
    let _ = optional::<NumberOrText>(alloc, fields, at, "write_timeout")?;
    let _ = optional::<NumberOrText>(alloc, fields, at, "idle_timeout")?;
    let _ = optional::<NumberOrText>(alloc, fields, at, "keepalive_interval")?;
    let _ = optional::<NumberOrText>(alloc, fields, at, "max_header_bytes")?;
    Ok(())
}

// What concerns TLS and the versions of HTTP, which has no effect so far.
#[tactic(auto, unfolding(crate::specs::Server::protocols))]
fn read_protocols(alloc: Global, fields: &Fields<'_>, at: &Place<'_>) -> Result<(), LoadFault>
    ensures { Gives LoadFault.NoMemory result (protocols fields.now.members.now at.now) }
{
    let _ = optional::<UnreadObject>(alloc, fields, at, "automatic_https")?;
    let _ = optional::<UnreadList>(alloc, fields, at, "protocols")?;
    let _ = optional::<bool>(alloc, fields, at, "strict_sni_host")?;
    Ok(())
}

// The members of a server, where these are the names of its named routes.
#[tactic(auto, unfolding(crate::specs::Server::server_members))]
fn read_members(
    alloc: Global,
    name: &Text,
    known: &[KnownName],
    fields: &Fields<'_>,
    at: &Place<'_>,
) -> Result<Server, LoadFault>
    ensures { Gives LoadFault.NoMemory result (server_members name.now known.now fields.now.members.now at.now) }
{
    let listen = needed::<Listen>(alloc, fields, at, "listen")?;
    let routes = read_routes_member(alloc, known, fields, at, "routes")?;
    let errors = read_errors_member(alloc, known, fields, at, "errors")?;
    let named = read_named_member(alloc, known, fields, at, "named_routes")?;
    let logs = optional::<UnreadObject>(alloc, fields, at, "logs")?;
    read_timeouts(alloc, fields, at)?;
    read_protocols(alloc, fields, at)?;
    Ok(Server {
        name: name.copy(alloc)?,
        listen,
        routes: routes.unwrap_or(List::new(alloc)),
        errors,
        named: named.unwrap_or(List::new(alloc)),
        logs: logs.is_some(),
    })
}

impl Named for Server {
    ghost named = { server };

    #[tactic(auto, unfolding(crate::specs::Server::server))]
    fn read_named(
        alloc: Global,
        name: &Text,
        tree: &Tree,
        at: &Place<'_>,
    ) -> Result<Server, LoadFault> {
        let fields = fields_of(
            alloc,
            tree,
            at,
            "listen routes errors named_routes logs read_timeout read_header_timeout write_timeout idle_timeout keepalive_interval max_header_bytes automatic_https protocols strict_sni_host",
        )?;
        let known = known_names(alloc, &fields, at)?;
        read_members(alloc, name, known.as_slice(), &fields, at)
    }
}
