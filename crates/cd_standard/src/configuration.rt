ghost use Rattle.std.specs.Prelude.{◌≡◌};
ghost use Rattle.cd_standard.specs.Configuration.{apps, apps_or_none, configuration};

use crate::app::App;
use cd_admin::Admin;
use cd_log::Logs;
use cd_module::{LoadFault, Settings, fields_of, object_by_name, optional};
use cd_text::List;
use cd_tree::{Place, Tree};
use std::alloc::Global;

/// What a whole configuration says (Caddy, JSON Config Structure).
#[derive(Debug, Drop)]
pub struct Configuration {
    pub admin: Admin,
    /// By rising name.
    pub apps: List<App>,
    pub logs: Logs,
}

// An object of apps.
#[derive(Debug, Drop)]
struct Apps {
    apps: List<App>,
}

impl Settings for Apps {
    ghost reader = { apps };

    #[tactic(auto, unfolding(crate::specs::Configuration::apps))]
    fn read(alloc: Global, tree: &Tree, at: &Place<'_>) -> Result<Apps, LoadFault> {
        let apps = object_by_name::<App>(alloc, tree, at)?;
        Ok(Apps { apps })
    }
}

fn apps_or_none(alloc: Global, given: Option<Apps>) -> List<App>
    ensures { result ≡ apps_or_none given }
{
    match given {
        Some(found) => {
            let Apps { apps } = found;
            apps
        }
        None => List::new(alloc),
    }
}

impl Settings for Configuration {
    ghost reader = { configuration };

    #[tactic(auto, unfolding(crate::specs::Configuration::configuration))]
    fn read(alloc: Global, tree: &Tree, at: &Place<'_>) -> Result<Configuration, LoadFault> {
        let fields = fields_of(alloc, tree, at, "admin apps logging")?;
        let admin = optional::<Admin>(alloc, &fields, at, "admin")?;
        let apps = optional::<Apps>(alloc, &fields, at, "apps")?;
        let logs = optional::<Logs>(alloc, &fields, at, "logging")?;
        Ok(Configuration {
            admin: Admin::or_usual(alloc, admin)?,
            apps: apps_or_none(alloc, apps),
            logs: Logs::or_none(alloc, logs),
        })
    }
}
