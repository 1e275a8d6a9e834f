//! Changes of the fields of a request or of an answer.
ghost use Rattle.std.specs.Prelude.{◌≡◌, ◌||◌, ◌&&◌, not, filter, IfOk};
ghost use Rattle.std.specs.List.{list_any};
ghost use Rattle.cd_text.specs.Gives.{Gives};
ghost use Rattle.cd_handlers.specs.declared.fault.HandlerFault.{HandlerFault};
ghost use Rattle.cd_handlers.specs.Changes.{is_star, stays, deletes, cleared, remaining, changed_by, changed, values_filled};

use crate::fault::HandlerFault;
use crate::field_values::FieldValues;
use crate::fields::{FilledField, added, replaced};
use crate::filling::fields_filled;
use cd_fill::{Lent, Scene};
use cd_module::Pattern;
use cd_text::{List, NoMemory};
use cd_wire::Field;
use std::alloc::Global;

/// Changes of fields, with texts that are filled for each request.
#[derive(Debug, Drop)]
pub struct Changes {
    /// The fields that get further values, by rising name.
    pub add: List<FieldValues>,
    /// The fields whose values are replaced, by rising name.
    pub set: List<FieldValues>,
    /// The names of fields that are removed, in any case. `*` alone removes all, before anything is added.
    pub delete: List<Pattern>,
}

/// What is added and what is replaced, with filled values.
#[derive(Debug, Drop)]
pub struct FilledValues {
    pub add: List<FilledField>,
    pub set: List<FilledField>,
}

/// Changes of the fields of an answer, with filled values. What is deleted is lent by the settings.
#[derive(Debug, Drop)]
pub struct FilledChanges<'a> {
    pub values: FilledValues,
    pub delete: Lent<'a, Pattern>,
}

/// Whose fields are changed.
#[derive(Clone, Copy, Debug)]
pub(crate) enum Side {
    Request,
    Answer,
}

// Whether the pattern is `*` alone.
fn is_star(pattern: &Pattern) -> bool
    ensures { result ≡ is_star pattern.now }
{
    match pattern {
        Pattern::Suffix(end) => end.len() == 0,
        _ => false,
    }
}

fn has_star(patterns: &[Pattern]) -> bool
    ensures { result ≡ list_any is_star patterns.now }
{
    patterns.iter().any(|pattern| is_star(pattern))
}

// Whether no deletion removes the field.
fn stays(side: Side, field: &Field<'_>) -> bool
    ensures { result ≡ stays side field.now }
{
    match side {
        Side::Request => field.name.equals(b"host"),
        Side::Answer => false,
    }
}

fn deletes(pattern: &Pattern, field: &Field<'_>) -> bool
    ensures { result ≡ deletes field.now pattern.now }
{
    !is_star(pattern) && pattern.fits_in_any_case(field.name.as_slice())
}

fn is_deleted(patterns: &[Pattern], field: &Field<'_>) -> bool
    ensures { result ≡ list_any (deletes field.now) patterns.now }
{
    for pattern in patterns {
        if deletes(pattern, field) {
            return true;
        }
    }
    false
}

// The fields that no deletion removes.
fn staying<'r>(side: Side, fields: List<Field<'r>>) -> List<Field<'r>>
    ensures { result ≡ filter (stays side) fields.entry }
{
    let mut kept = fields.into_vec();
    kept.retain(|field| stays(side, field));
    List::from_vec(kept)
}

// What is left before anything is added.
fn cleared<'r>(side: Side, patterns: &[Pattern], fields: List<Field<'r>>) -> List<Field<'r>>
    ensures { result ≡ cleared side patterns.now fields.entry }
{
    if has_star(patterns) {
        staying(side, fields)
    } else {
        fields
    }
}

// What is left at the end.
fn remaining<'r>(side: Side, patterns: &[Pattern], fields: List<Field<'r>>) -> List<Field<'r>>
    ensures { result ≡ remaining side patterns.now fields.entry }
{
    let mut kept = fields.into_vec();
    kept.retain(|field| stays(side, field) || !is_deleted(patterns, field));
    List::from_vec(kept)
}

/// The fields with these changes.
#[tactic(auto, unfolding(crate::specs::Changes::changed_by))]
pub(crate) fn changed_by<'r>(
    alloc: Global,
    side: Side,
    values: FilledValues,
    delete: &[Pattern],
    fields: List<Field<'r>>,
) -> Result<List<Field<'r>>, NoMemory>
    ensures { IfOk result (λ made. made ≡ changed_by side values delete.now fields.entry) }
{
    let FilledValues { add, set } = values;
    let fields = cleared(side, delete, fields);
    let fields = added(alloc, add, fields)?;
    let fields = replaced(alloc, set, fields)?;
    Ok(remaining(side, delete, fields))
}

/// The fields of an answer with the changes that a handler left for it.
pub fn changed<'r>(
    alloc: Global,
    changes: FilledChanges<'_>,
    fields: List<Field<'r>>,
) -> Result<List<Field<'r>>, NoMemory>
    ensures { IfOk result (λ made. made ≡ changed changes.entry fields.entry) }
{
    let FilledChanges { values, delete } = changes;
    changed_by(alloc, Side::Answer, values, delete.as_slice(), fields)
}

/// What is added and replaced, filled in a scene.
#[tactic(auto, unfolding(crate::specs::Changes::values_filled))]
pub(crate) fn values_filled(
    alloc: Global,
    changes: &Changes,
    scene: &Scene<'_>,
) -> Result<FilledValues, HandlerFault>
    ensures { Gives HandlerFault.NoMemory result (values_filled scene.now changes.now) }
{
    let add = fields_filled(alloc, &changes.add, scene)?;
    let set = fields_filled(alloc, &changes.set, scene)?;
    Ok(FilledValues { add, set })
}
