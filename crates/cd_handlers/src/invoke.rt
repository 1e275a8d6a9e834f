ghost use Rattle.std.specs.Prelude.{◌≡◌};
ghost use Rattle.std.specs.Option.{option_copied};
ghost use Rattle.cd_handlers.specs.Invoke.{invoke, invoked};

use crate::handler::Handler;
use cd_module::{LoadFault, Settings, fields_of, needed};
use cd_text::Text;
use cd_tree::{Place, Tree};
use std::alloc::Global;

/// `invoke`: a named route stands in its place (Caddy, JSON Config Structure, http.handlers.invoke). By itself it does nothing.
#[derive(Debug, Drop)]
pub struct Invoke {
    /// The name among the named routes of its server.
    pub name: Text,
}

impl Settings for Invoke {
    ghost reader = { invoke };

    #[tactic(auto, unfolding(crate::specs::Invoke::invoke))]
    fn read(alloc: Global, tree: &Tree, at: &Place<'_>) -> Result<Invoke, LoadFault> {
        let fields = fields_of(alloc, tree, at, "handler name")?;
        let name = needed::<Text>(alloc, &fields, at, "name")?;
        Ok(Invoke { name })
    }
}

impl Handler {
    /// The name of the route that it invokes; `None` where it is no `invoke`.
    pub fn invoked(&self) -> Option<&Text>
        ensures { option_copied result ≡ invoked self.now }
    {
        match self {
            Handler::Invoke(settings) => Some(&settings.name),
            Handler::StaticResponse(_)
            | Handler::Headers(_)
            | Handler::Rewrite(_)
            | Handler::Vars(_)
            | Handler::Error(_) => None,
        }
    }
}
