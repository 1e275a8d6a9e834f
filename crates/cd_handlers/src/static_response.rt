ghost use Rattle.std.specs.Prelude.{◌≡◌, None, IfOk};
ghost use Rattle.cd_text.specs.Gives.{Gives};
ghost use Rattle.cd_handlers.specs.declared.fault.HandlerFault.{HandlerFault};
ghost use Rattle.cd_handlers.specs.Done.{effect_of, left_by};
ghost use Rattle.cd_handlers.specs.StaticResponse.{static_response, type_field, with_type, parts_filled, answered, static_effect};

use crate::body::BodyText;
use crate::failing::unable;
use crate::fault::HandlerFault;
use crate::field_values::{FieldList, FieldValues, fields_or_none};
use crate::fields::{FilledField, has_field, replaced};
use crate::filling::{fields_filled, text_lent};
use crate::outcome::Done;
use crate::status::{Status, status_given, usual_status};
use crate::texts::no_text;
use cd_fill::Scene;
use cd_module::{LoadFault, Settings, fields_of, optional};
use cd_text::{List, NoMemory, Text};
use cd_tree::{Place, Tree};
use cd_wire::{Answer, Field, Lent};
use std::alloc::Global;
use std::mem::replace;

/// `static_response`: an answer that the settings fix but for placeholders (Caddy, JSON Config Structure,
/// http.handlers.static_response).
#[derive(Debug, Drop)]
pub struct StaticResponse {
    /// The status of the answer. Where none is given it is that of the error in error routes, else 200.
    pub status: Option<Status>,
    /// The fields whose values are replaced, by rising name.
    pub headers: List<FieldValues>,
    /// The text of the body. A body that is not empty gets a content type where there is none.
    pub body: BodyText,
    /// Whether the connection is closed behind the answer.
    pub close: bool,
}

impl Settings for StaticResponse {
    ghost reader = { static_response };

    #[tactic(auto, unfolding(crate::specs::StaticResponse::static_response))]
    fn read(alloc: Global, tree: &Tree, at: &Place<'_>) -> Result<StaticResponse, LoadFault> {
        let names = "handler status_code headers body close";
        let fields = fields_of(alloc, tree, at, names)?;
        let status = optional::<Status>(alloc, &fields, at, "status_code")?;
        let headers = optional::<FieldList>(alloc, &fields, at, "headers")?;
        let body = optional::<Text>(alloc, &fields, at, "body")?;
        let close = optional::<bool>(alloc, &fields, at, "close")?;
        let body = BodyText::of(alloc, body.unwrap_or(no_text(alloc)))?;
        Ok(StaticResponse {
            status,
            headers: fields_or_none(alloc, headers),
            body,
            close: close.unwrap_or(false),
        })
    }
}

#[tactic(auto, unfolding(crate::specs::StaticResponse::type_field))]
fn type_field<'r>(alloc: Global, settings: &BodyText, body: &[u8]) -> Result<Field<'r>, NoMemory>
    ensures { IfOk result (λ field. field ≡ type_field body.now) }
{
    let value: &'static [u8] = if settings.is_json_as(alloc, body)? {
        b"application/json"
    } else {
        b"text/plain; charset=utf-8"
    };
    Ok(Field {
        name: Lent::shared(b"content-type"),
        value: Lent::shared(value),
    })
}

#[tactic(auto, unfolding(crate::specs::StaticResponse::with_type))]
fn with_type<'r>(
    alloc: Global,
    settings: &BodyText,
    body: &[u8],
    fields: List<Field<'r>>,
) -> Result<List<Field<'r>>, NoMemory>
    ensures { IfOk result (λ made. made ≡ with_type body.now fields.entry) }
{
    if body.is_empty() || has_field(&fields, "content-type") {
        return Ok(fields);
    }
    let mut fields = fields;
    fields.push(type_field(alloc, settings, body)?)?;
    Ok(fields)
}

/// What a static response fills in a scene.
#[derive(Debug, Drop)]
pub(crate) struct Parts<'r> {
    pub status: u16,
    pub headers: List<FilledField>,
    pub body: Lent<'r, u8>,
}

#[tactic(auto, unfolding(crate::specs::StaticResponse::parts_filled))]
fn parts_filled<'r>(
    alloc: Global,
    settings: &'r StaticResponse,
    scene: &Scene<'_>,
) -> Result<Parts<'r>, HandlerFault>
    ensures { Gives HandlerFault.NoMemory result (parts_filled settings.now scene.now) }
{
    let usual = usual_status(&scene.error);
    let status = status_given(alloc, &settings.status, usual, scene)?;
    let headers = fields_filled(alloc, &settings.headers, scene)?;
    let body = text_lent(alloc, settings.body.text(), scene)?;
    Ok(Parts {
        status,
        headers,
        body,
    })
}

fn answered<'r>(
    alloc: Global,
    settings: &StaticResponse,
    response: List<Field<'r>>,
    parts: Parts<'r>,
) -> Result<Answer<'r>, NoMemory>
    ensures { IfOk result (λ answer. answer ≡ answered settings.now response.entry parts.entry) }
{
    let Parts {
        status,
        headers,
        body,
    } = parts;
    let fields = replaced(alloc, headers, response)?;
    let fields = with_type(alloc, &settings.body, body.as_slice(), fields)?;
    Ok(Answer {
        status,
        fields,
        body,
        close: settings.close,
    })
}

/// Answers as the settings say.
#[tactic(auto, unfolding(crate::specs::StaticResponse::static_effect))]
pub(crate) fn respond<'r>(
    alloc: Global,
    settings: &'r StaticResponse,
    scene: &mut Scene<'r>,
) -> Result<Done<'r>, NoMemory>
    ensures effect { IfOk result (λ done. effect_of done scene.new ≡ static_effect settings.now scene.old) }
    ensures changes { IfOk result (λ done. left_by done ≡ None) }
{
    match parts_filled(alloc, settings, scene) {
        Ok(parts) => {
            let response = replace(&mut scene.response, List::new(alloc));
            let answer = answered(alloc, settings, response, parts)?;
            Ok(Done::Answered(answer))
        }
        Err(fault) => unable(alloc, fault),
    }
}
