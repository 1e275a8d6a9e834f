ghost use Rattle.std.specs.Prelude.{◌≡◌, true, List, Ok, IfOk};
ghost use Rattle.cd_text.specs.Gives.{Gives};
ghost use Rattle.cd_wire.specs.declared.fields.Field.{Field};
ghost use Rattle.cd_handlers.specs.declared.changes.Side.{Side};
ghost use Rattle.cd_handlers.specs.declared.changes.Side.TheVariants as side;
ghost use Rattle.cd_handlers.specs.declared.fault.HandlerFault.{HandlerFault};
ghost use Rattle.cd_handlers.specs.declared.outcome.Effect.TheVariants as does;
ghost use Rattle.cd_handlers.specs.Changes.{changed_by, values_filled};
ghost use Rattle.cd_handlers.specs.Done.{effect_of, left_by};
ghost use Rattle.cd_handlers.specs.Effect.{has_gone_on};
ghost use Rattle.cd_handlers.specs.Headers.{request_changes, response_changes, no_changes, request_or_none, response_or_none, headers, both_filled, goes_on, headers_effect, headers_deferred};

use crate::changes::{Changes, FilledChanges, FilledValues, Side, changed_by, values_filled};
use crate::failing::unable;
use crate::fault::HandlerFault;
use crate::field_values::{FieldList, RequestFieldList, fields_or_none, request_fields_or_none};
use crate::outcome::Done;
use cd_fill::{Lent, Scene};
use cd_module::{LoadFault, Pattern, Settings, fields_of, optional};
use cd_text::{List, NoMemory};
use cd_tree::{Place, Tree};
use cd_wire::{Field, RequestFields};
use std::alloc::Global;
use std::mem::replace;

/// `headers`: changes of the fields of the request and of the answer (Caddy, JSON Config Structure, http.handlers.headers).
#[derive(Debug, Drop)]
pub struct Headers {
    pub request: Changes,
    pub response: ResponseChanges,
}

/// Changes of the fields of the answer.
#[derive(Debug, Drop)]
pub struct ResponseChanges {
    pub changes: Changes,
    /// Whether they are left for the answer that comes of what follows. Otherwise they are made at once, and what follows may
    /// change the fields again.
    pub deferred: bool,
}

/// Changes of the fields of the request, of which none is of `host`.
#[derive(Debug, Drop)]
pub(crate) struct RequestChanges {
    pub changes: Changes,
}

impl Settings for RequestChanges {
    ghost reader = { request_changes };

    #[tactic(auto, unfolding(crate::specs::Headers::request_changes))]
    fn read(alloc: Global, tree: &Tree, at: &Place<'_>) -> Result<RequestChanges, LoadFault> {
        let fields = fields_of(alloc, tree, at, "add set delete")?;
        let add = optional::<RequestFieldList>(alloc, &fields, at, "add")?;
        let set = optional::<RequestFieldList>(alloc, &fields, at, "set")?;
        let delete = optional::<List<Pattern>>(alloc, &fields, at, "delete")?;
        Ok(RequestChanges {
            changes: Changes {
                add: request_fields_or_none(alloc, add),
                set: request_fields_or_none(alloc, set),
                delete: delete.unwrap_or(List::new(alloc)),
            },
        })
    }
}

impl Settings for ResponseChanges {
    ghost reader = { response_changes };

    #[tactic(auto, unfolding(crate::specs::Headers::response_changes))]
    fn read(alloc: Global, tree: &Tree, at: &Place<'_>) -> Result<ResponseChanges, LoadFault> {
        let fields = fields_of(alloc, tree, at, "add set delete deferred")?;
        let add = optional::<FieldList>(alloc, &fields, at, "add")?;
        let set = optional::<FieldList>(alloc, &fields, at, "set")?;
        let delete = optional::<List<Pattern>>(alloc, &fields, at, "delete")?;
        let deferred = optional::<bool>(alloc, &fields, at, "deferred")?;
        Ok(ResponseChanges {
            changes: Changes {
                add: fields_or_none(alloc, add),
                set: fields_or_none(alloc, set),
                delete: delete.unwrap_or(List::new(alloc)),
            },
            deferred: deferred.unwrap_or(false),
        })
    }
}

fn no_changes(alloc: Global) -> Changes
    ensures { result ≡ no_changes }
{
    Changes {
        add: List::new(alloc),
        set: List::new(alloc),
        delete: List::new(alloc),
    }
}

fn request_or_none(alloc: Global, request: Option<RequestChanges>) -> Changes
    ensures { result ≡ request_or_none request }
{
    match request {
        Some(request) => request.changes,
        None => no_changes(alloc),
    }
}

fn response_or_none(alloc: Global, response: Option<ResponseChanges>) -> ResponseChanges
    ensures { result ≡ response_or_none response }
{
    match response {
        Some(response) => response,
        None => ResponseChanges {
            changes: no_changes(alloc),
            deferred: false,
        },
    }
}

impl Settings for Headers {
    ghost reader = { headers };

    #[tactic(auto, unfolding(crate::specs::Headers::headers))]
    fn read(alloc: Global, tree: &Tree, at: &Place<'_>) -> Result<Headers, LoadFault> {
        let fields = fields_of(alloc, tree, at, "handler request response")?;
        let request = optional::<RequestChanges>(alloc, &fields, at, "request")?;
        let response = optional::<ResponseChanges>(alloc, &fields, at, "response")?;
        Ok(Headers {
            request: request_or_none(alloc, request),
            response: response_or_none(alloc, response),
        })
    }
}

/// The values of all changes of a handler.
#[derive(Debug, Drop)]
pub(crate) struct Both {
    pub request: FilledValues,
    pub response: FilledValues,
}

#[tactic(auto, unfolding(crate::specs::Headers::both_filled))]
fn both_filled(alloc: Global, settings: &Headers, scene: &Scene<'_>) -> Result<Both, HandlerFault>
    ensures both { Gives HandlerFault.NoMemory result (both_filled settings.now scene.now) }
    ensures response { IfOk result (λ both. values_filled scene.now settings.now.response.changes ≡ Ok both.response) }
{
    let request = values_filled(alloc, &settings.request, scene)?;
    let response = values_filled(alloc, &settings.response.changes, scene)?;
    Ok(Both { request, response })
}

// Whether there is nothing to change.
fn changes_nothing(values: &FilledValues, delete: &List<Pattern>) -> bool
    ensures { result ≡ true → (side : Side) → (fields : List Field) → changed_by side values.now delete.now fields ≡ fields }
{
    if !values.add.is_empty() {
        return false;
    }
    if !values.set.is_empty() {
        return false;
    }
    delete.is_empty()
}

// The fields of the request, which are copied where anything is to be changed.
fn request_changed<'r>(
    alloc: Global,
    values: FilledValues,
    delete: &List<Pattern>,
    fields: RequestFields<'r>,
) -> Result<RequestFields<'r>, NoMemory>
    ensures { IfOk result (λ made. made ≡ changed_by side.Request values delete.now fields.entry) }
{
    if changes_nothing(&values, delete) {
        return Ok(fields);
    }
    let fields = fields.into_list(alloc)?;
    let made = changed_by(alloc, Side::Request, values, delete.as_slice(), fields)?;
    Ok(RequestFields::own(made))
}

fn change_request(
    alloc: Global,
    settings: &Headers,
    values: FilledValues,
    scene: &mut Scene<'_>,
) -> Result<(), NoMemory>
    ensures { IfOk result (λ _. scene.new ≡ record scene.old {
      fields = changed_by side.Request values settings.now.request.delete scene.old.fields;
    }) }
{
    let delete = &settings.request.delete;
    let fields = replace(&mut scene.fields, RequestFields::own(List::new(alloc)));
    let fields = request_changed(alloc, values, delete, fields)?;
    let _ = replace(&mut scene.fields, fields);
    Ok(())
}

fn change_response(
    alloc: Global,
    settings: &Headers,
    values: FilledValues,
    scene: &mut Scene<'_>,
) -> Result<(), NoMemory>
    ensures { IfOk result (λ _. scene.new ≡ record scene.old {
      response = changed_by side.Answer values settings.now.response.changes.delete scene.old.response;
    }) }
{
    let delete = settings.response.changes.delete.as_slice();
    let now = replace(&mut scene.response, List::new(alloc));
    let fields = changed_by(alloc, Side::Answer, values, delete, now)?;
    let _ = replace(&mut scene.response, fields);
    Ok(())
}

// The request goes on, and changes of the answer are made now or left for it.
#[tactic(auto, unfolding(crate::specs::Headers::goes_on, crate::specs::Headers::headers_deferred, crate::specs::Changes::changes_filled))]
fn go_on<'r>(
    alloc: Global,
    settings: &'r Headers,
    both: Both,
    scene: &mut Scene<'_>,
) -> Result<Done<'r>, NoMemory>
    requires { values_filled scene.old settings.now.response.changes ≡ Ok both.response }
    ensures effect { IfOk result (λ done. effect_of done scene.new ≡ does.Next (goes_on settings.now scene.old both)) }
    ensures changes { IfOk result (λ done. left_by done ≡ headers_deferred settings.now scene.old) }
{
    let Both { request, response } = both;
    change_request(alloc, settings, request, scene)?;
    if settings.response.deferred {
        return Ok(Done::Leaves(FilledChanges {
            values: response,
            delete: Lent::shared(settings.response.changes.delete.as_slice()),
        }));
    }
    change_response(alloc, settings, response, scene)?;
    Ok(Done::Goes)
}

/// Changes the fields of the request, and those of the answer unless that is deferred: then the changes are left for the answer
/// of what follows.
#[tactic(auto, unfolding(crate::specs::Headers::headers_effect))]
pub(crate) fn change_fields<'r>(
    alloc: Global,
    settings: &'r Headers,
    scene: &mut Scene<'_>,
) -> Result<Done<'r>, NoMemory>
    ensures effect { IfOk result (λ done. effect_of done scene.new ≡ headers_effect settings.now scene.old) }
    ensures changes { IfOk result (λ done. has_gone_on (headers_effect settings.now scene.old) ≡ true → left_by done ≡ headers_deferred settings.now scene.old) }
{
    match both_filled(alloc, settings, scene) {
        Ok(both) => go_on(alloc, settings, both, scene),
        Err(fault) => unable(alloc, fault),
    }
}
