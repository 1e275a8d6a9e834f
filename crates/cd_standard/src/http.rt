ghost use Rattle.std.specs.Prelude.{◌≡◌};
ghost use Rattle.cd_standard.specs.Configuration.{http, servers, servers_or_none};

use cd_module::{LoadFault, NumberOrText, Settings, fields_of, object_by_name, optional};
use cd_routes::Server;
use cd_text::List;
use cd_tree::{Place, Tree};
use std::alloc::Global;

/// The settings of the app `http` (Caddy, JSON Config Structure, `apps.http`).
#[derive(Debug, Drop)]
pub struct Http {
    /// By rising name.
    pub servers: List<Server>,
}

// An object of servers.
#[derive(Debug, Drop)]
struct Servers {
    servers: List<Server>,
}

impl Settings for Servers {
    ghost reader = { servers };

    #[tactic(auto, unfolding(crate::specs::Configuration::servers))]
    fn read(alloc: Global, tree: &Tree, at: &Place<'_>) -> Result<Servers, LoadFault> {
        let servers = object_by_name::<Server>(alloc, tree, at)?;
        Ok(Servers { servers })
    }
}

fn servers_or_none(alloc: Global, given: Option<Servers>) -> List<Server>
    ensures { result ≡ servers_or_none given }
{
    match given {
        Some(found) => {
            let Servers { servers } = found;
            servers
        }
        None => List::new(alloc),
    }
}

impl Settings for Http {
    ghost reader = { http };

    #[tactic(auto, unfolding(crate::specs::Configuration::http))]
    fn read(alloc: Global, tree: &Tree, at: &Place<'_>) -> Result<Http, LoadFault> {
        let names = "http_port https_port grace_period shutdown_delay servers";
        let fields = fields_of(alloc, tree, at, names)?;
        let _ = optional::<NumberOrText>(alloc, &fields, at, "http_port")?;
        let _ = optional::<NumberOrText>(alloc, &fields, at, "https_port")?;
        let _ = optional::<NumberOrText>(alloc, &fields, at, "grace_period")?;
        let _ = optional::<NumberOrText>(alloc, &fields, at, "shutdown_delay")?;
        let servers = optional::<Servers>(alloc, &fields, at, "servers")?;
        Ok(Http {
            servers: servers_or_none(alloc, servers),
        })
    }
}
