ghost use Rattle.std.specs.Prelude.{◌≡◌};
ghost use Rattle.cd_text.specs.Gives.{Gives};
ghost use Rattle.cd_admin.specs.Endpoints.{endpoint, config_at, id_at, any_method, post_alone, action_at};

use crate::action::Action;
use crate::denial::{Denial, Methods};
use crate::ending::Ending;
use crate::paths::{copies, split, without_first_slashes, without_last_slashes};
use cd_path::Verb;
use cd_text::{List, Text};
use cd_tree::Path;
use std::alloc::Global;

/// What the path of a request names.
#[derive(Debug, Drop)]
pub enum Endpoint {
    /// `/config` and what is below it: a path in the tree.
    Config(Path),
    /// What is below `/id/`: an id, and the parts below its object.
    Id(Text, List<Text>),
    /// `/load`.
    Load,
    /// `/stop`.
    Stop,
}

/// What a path names, after percent-decoding.
#[tactic(auto, unfolding(crate::specs::Endpoints::endpoint))]
pub(crate) fn endpoint_of(alloc: Global, path: &[u8]) -> Result<Endpoint, Ending>
    ensures { Gives Ending.NoMemory result (endpoint path.now) }
{
    if path == b"/load".as_slice() {
        return Ok(Endpoint::Load);
    }
    if path == b"/stop".as_slice() {
        return Ok(Endpoint::Stop);
    }
    if path == b"/config".as_slice() {
        return Ok(Endpoint::Config(Path::root(alloc)));
    }
    if let Some(rest) = path.strip_prefix(b"/config/".as_slice()) {
        return config_at(alloc, rest);
    }
    match path.strip_prefix(b"/id/".as_slice()) {
        Some(rest) => id_at(alloc, rest),
        None => Err(Ending::Denied(Denial::UnknownPath)),
    }
}

fn config_at(alloc: Global, rest: &[u8]) -> Result<Endpoint, Ending>
    ensures { Gives Ending.NoMemory result (config_at rest.now) }
{
    let found = split(alloc, without_last_slashes(without_first_slashes(rest)))?;
    let parts = copies(alloc, found.as_slice())?;
    Ok(Endpoint::Config(Path { parts }))
}

fn id_at(alloc: Global, rest: &[u8]) -> Result<Endpoint, Ending>
    ensures { Gives Ending.NoMemory result (id_at rest.now) }
{
    let found = split(alloc, without_last_slashes(rest))?;
    match found.as_slice() {
        [] => Err(Ending::Denied(Denial::UnknownPath)),
        [id, below @ ..] => {
            let id = Text::from_str(alloc, id)?;
            Ok(Endpoint::Id(id, copies(alloc, below)?))
        }
    }
}

/// What a method asks for at an endpoint (RFC 9110, section 9.3).
#[tactic(auto, unfolding(crate::specs::Endpoints::action_at))]
pub(crate) fn action_at(place: &Endpoint, method: &[u8]) -> Result<Action, Ending>
    ensures { Gives Ending.NoMemory result (action_at place.now method.now) }
{
    match place {
        Endpoint::Config(_) | Endpoint::Id(_, _) => any_method(method),
        Endpoint::Load | Endpoint::Stop => post_alone(method),
    }
}

fn any_method(method: &[u8]) -> Result<Action, Ending>
    ensures { Gives Ending.NoMemory result (any_method method.now) }
{
    if method == b"GET".as_slice() {
        Ok(Action::Look)
    } else if method == b"POST".as_slice() {
        Ok(Action::Change(Verb::Post))
    } else if method == b"PUT".as_slice() {
        Ok(Action::Change(Verb::Put))
    } else if method == b"PATCH".as_slice() {
        Ok(Action::Change(Verb::Patch))
    } else if method == b"DELETE".as_slice() {
        Ok(Action::Change(Verb::Delete))
    } else {
        Err(Ending::Denied(Denial::OtherMethod(Methods::All)))
    }
}

fn post_alone(method: &[u8]) -> Result<Action, Ending>
    ensures { Gives Ending.NoMemory result (post_alone method.now) }
{
    if method == b"POST".as_slice() {
        Ok(Action::Change(Verb::Post))
    } else {
        Err(Ending::Denied(Denial::OtherMethod(Methods::PostAlone)))
    }
}
