//! The tests of a request that need no tree.
ghost use Rattle.std.specs.Prelude.{◌≡◌, IfOk};
ghost use Rattle.std.specs.Option.{ForSome};
ghost use Rattle.cd_text.specs.Gives.{Gives};
ghost use Rattle.cd_tree.specs.Tree.{IsSound};
ghost use Rattle.cd_tree.specs.Reading.{tree_of};
ghost use Rattle.cd_caddyfile.specs.Adapting.{adapted};
ghost use Rattle.cd_admin.specs.Asking.{takes_body, no_halt, takes_caddyfile, form_for, tree_in, adapted_in, body_for, asked};

use crate::action::Action;
use crate::asked::Asked;
use crate::denial::Denial;
use crate::ending::Ending;
use crate::endpoint::{Endpoint, action_at, endpoint_of};
use crate::fields::{are_caddyfile, are_json, values_of};
use crate::form::Form;
use cd_adapt::adapt;
use cd_caddyfile::{CaddyfileFault, CaddyfileKind};
use cd_path::Verb;
use cd_tree::{Tree, TreeFault, read};
use cd_wire::{Fields, Request};
use std::alloc::Global;

/// What a request asks for, or how it ends before its tree is looked at.
#[tactic(auto, unfolding(crate::specs::Asking::asked))]
pub(crate) fn asked_by(alloc: Global, request: &Request) -> Result<Asked, Ending>
    ensures exact { Gives Ending.NoMemory result (asked request.now) }
    ensures sound { IfOk result (λ asked. ForSome asked.body IsSound) }
{
    let place = endpoint_of(alloc, request.path())?;
    let action = action_at(&place, request.method())?;
    no_halt(&place)?;
    let form = form_for(alloc, &place, action, request.fields())?;
    let body = body_for(alloc, action, form, request.body())?;
    Ok(Asked {
        place,
        action,
        body,
    })
}

fn takes_body(action: Action) -> bool
    ensures { result ≡ takes_body action }
{
    match action {
        Action::Look | Action::Change(Verb::Delete) => false,
        Action::Change(Verb::Post | Verb::Put | Verb::Patch) => true,
    }
}

#[tactic(auto, unfolding(crate::specs::Asking::no_halt))]
fn no_halt(place: &Endpoint) -> Result<(), Ending>
    ensures { Gives Ending.NoMemory result (no_halt place.now) }
{
    match place {
        Endpoint::Config(_) | Endpoint::Id(_, _) | Endpoint::Load => Ok(()),
        Endpoint::Stop => Err(Ending::Halt),
    }
}

fn takes_caddyfile(place: &Endpoint) -> bool
    ensures { result ≡ takes_caddyfile place.now }
{
    match place {
        Endpoint::Load => true,
        Endpoint::Config(_) | Endpoint::Id(_, _) | Endpoint::Stop => false,
    }
}

#[tactic(auto, unfolding(crate::specs::Asking::form_for))]
fn form_for(
    alloc: Global,
    place: &Endpoint,
    action: Action,
    fields: Fields<'_>,
) -> Result<Form, Ending>
    ensures { Gives Ending.NoMemory result (form_for place.now action fields.entry) }
{
    if !takes_body(action) {
        return Ok(Form::Json);
    }
    let fields = fields.list(alloc)?;
    let types = values_of(alloc, fields.as_slice(), "content-type")?;
    if are_json(alloc, types.as_slice())? {
        Ok(Form::Json)
    } else if takes_caddyfile(place) && are_caddyfile(types.as_slice()) {
        Ok(Form::Caddyfile)
    } else {
        Err(Ending::Denied(Denial::ContentType))
    }
}

#[tactic(auto, unfolding(crate::specs::Asking::body_for))]
fn body_for(alloc: Global, action: Action, form: Form, bytes: &[u8]) -> Result<Option<Tree>, Ending>
    ensures exact { Gives Ending.NoMemory result (body_for action form bytes.now) }
    ensures sound { IfOk result (λ body. ForSome body IsSound) }
{
    if !takes_body(action) {
        return Ok(None);
    }
    if bytes.is_empty() {
        return Err(Ending::Denied(Denial::NoBody));
    }
    match form {
        Form::Json => json_in(alloc, bytes),
        Form::Caddyfile => caddyfile_in(alloc, bytes),
    }
}

fn json_in(alloc: Global, bytes: &[u8]) -> Result<Option<Tree>, Ending>
    ensures exact { Gives Ending.NoMemory result (tree_in (tree_of bytes.now)) }
    ensures sound { IfOk result (λ body. ForSome body IsSound) }
{
    match read(alloc, bytes) {
        Ok(tree) => Ok(Some(tree)),
        Err(TreeFault::NoMemory) => Err(Ending::NoMemory),
        Err(fault) => Err(Ending::Denied(Denial::Body(fault))),
    }
}

fn caddyfile_in(alloc: Global, bytes: &[u8]) -> Result<Option<Tree>, Ending>
    ensures exact { Gives Ending.NoMemory result (adapted_in (adapted bytes.now)) }
    ensures sound { IfOk result (λ body. ForSome body IsSound) }
{
    match adapt(alloc, bytes) {
        Ok(tree) => Ok(Some(tree)),
        Err(
            CaddyfileFault {
                kind: CaddyfileKind::NoMemory,
                ..
            },
        ) => Err(Ending::NoMemory),
        Err(fault) => Err(Ending::Denied(Denial::Sites(fault))),
    }
}
