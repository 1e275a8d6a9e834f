ghost use Rattle.cd_text.specs.Gives.{Gives};
ghost use Rattle.cd_handlers.specs.Handlers.{handler, handler_of, known_handler};
ghost use Rattle.cd_handlers.specs.Names.{kind_named};

use crate::error::StaticError;
use crate::headers::Headers;
use crate::invoke::Invoke;
use crate::kind::HandlerKind;
use crate::rewrite::Rewrite;
use crate::static_response::StaticResponse;
use crate::vars::Vars;
use cd_module::{LoadFault, Settings, name_of};
use cd_text::Text;
use cd_tree::{Place, Tree};
use std::alloc::Global;

/// A handler that has no routes inside, with its settings. `subroute` is no name of one: the crate above reads it with its
/// routes, and looks at the name before it asks here.
#[derive(Debug, Drop)]
pub enum Handler {
    StaticResponse(StaticResponse),
    Headers(Headers),
    Rewrite(Rewrite),
    Vars(Vars),
    Error(StaticError),
    Invoke(Invoke),
}

// A handler that is known by its name.
#[tactic(auto, unfolding(crate::specs::Handlers::handler_of))]
fn read_kind(
    alloc: Global,
    kind: HandlerKind,
    tree: &Tree,
    at: &Place<'_>,
) -> Result<Handler, LoadFault>
    ensures { Gives LoadFault.NoMemory result (handler_of kind tree.now at.now) }
{
    match kind {
        HandlerKind::StaticResponse => {
            let settings = StaticResponse::read(alloc, tree, at)?;
            Ok(Handler::StaticResponse(settings))
        }
        HandlerKind::Headers => {
            let settings = Headers::read(alloc, tree, at)?;
            Ok(Handler::Headers(settings))
        }
        HandlerKind::Rewrite => {
            let settings = Rewrite::read(alloc, tree, at)?;
            Ok(Handler::Rewrite(settings))
        }
        HandlerKind::Vars => {
            let settings = Vars::read(alloc, tree, at)?;
            Ok(Handler::Vars(settings))
        }
        HandlerKind::Error => {
            let settings = StaticError::read(alloc, tree, at)?;
            Ok(Handler::Error(settings))
        }
        HandlerKind::Invoke => {
            let settings = Invoke::read(alloc, tree, at)?;
            Ok(Handler::Invoke(settings))
        }
    }
}

fn read_named(alloc: Global, name: &Text, tree: &Tree, at: &Place<'_>) -> Result<Handler, LoadFault>
    ensures { Gives LoadFault.NoMemory result (known_handler name.now (kind_named name.now) tree.now at.now) }
{
    match HandlerKind::named(name.as_str()) {
        Some(kind) => read_kind(alloc, kind, tree, at),
        None => Err(LoadFault::unknown_module(alloc, "http.handlers.", name.as_str(), at)),
    }
}

impl Settings for Handler {
    ghost reader = { handler };

    #[tactic(auto, unfolding(crate::specs::Handlers::handler))]
    fn read(alloc: Global, tree: &Tree, at: &Place<'_>) -> Result<Handler, LoadFault> {
        let name = name_of(alloc, tree, at, "handler")?;
        read_named(alloc, &name, tree, at)
    }
}
