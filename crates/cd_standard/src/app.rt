ghost use Rattle.cd_standard.specs.Configuration.{app};

use crate::echo::Echo;
use crate::http::Http;
use cd_module::{LoadFault, Named, Settings};
use cd_text::Text;
use cd_tree::{Place, Tree};
use std::alloc::Global;

/// An app of a configuration (Caddy, JSON Config Structure, `apps`).
#[derive(Debug, Drop)]
pub enum App {
    Echo(Echo),
    Http(Http),
}

impl Named for App {
    ghost named = { app };

    #[tactic(auto, unfolding(crate::specs::Configuration::app))]
    fn read_named(
        alloc: Global,
        name: &Text,
        tree: &Tree,
        at: &Place<'_>,
    ) -> Result<App, LoadFault> {
        if name.equals("echo") {
            Ok(App::Echo(Echo::read(alloc, tree, at)?))
        } else if name.equals("http") {
            Ok(App::Http(Http::read(alloc, tree, at)?))
        } else {
            Err(LoadFault::unknown_module(alloc, "", name.as_str(), at))
        }
    }
}
