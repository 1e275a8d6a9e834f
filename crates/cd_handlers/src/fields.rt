//! Changes of fields.
ghost use Rattle.std.specs.Prelude.{◌≡◌, ◌++◌, IfOk};
ghost use Rattle.std.specs.List.{list_any};
ghost use Rattle.cd_wire.specs.Fields.{is_named};
ghost use Rattle.cd_handlers.specs.Fields.{with_values, added, without, replaced};

use cd_text::{List, NoMemory, Octets, Text};
use cd_wire::{Field, Lent};
use std::alloc::Global;

/// A field with its filled values.
#[derive(Debug, Drop)]
pub struct FilledField {
    /// The name, in lower case.
    pub name: Text,
    pub values: List<Octets>,
}

fn put_values<'r>(
    alloc: Global,
    fields: List<Field<'r>>,
    name: &Text,
    values: List<Octets>,
) -> Result<List<Field<'r>>, NoMemory>
    ensures { IfOk result (λ made. made ≡ fields.entry ++ with_values name.now values) }
{
    let mut fields = fields;
    for value in values.into_vec() {
        let name = Lent::text(name.copy(alloc)?);
        let value = Lent::octets(value);
        fields.push(Field { name, value })?;
    }
    Ok(fields)
}

// The same, where the name moves into the last field.
#[tactic(auto, using(crate::proofs::FieldLemmas::with_last))]
fn put_filled<'r>(
    alloc: Global,
    fields: List<Field<'r>>,
    name: Text,
    values: List<Octets>,
) -> Result<List<Field<'r>>, NoMemory>
    ensures { IfOk result (λ made. made ≡ fields.entry ++ with_values name values) }
{
    let mut values = values;
    let Some(value) = values.pop() else {
        return Ok(fields);
    };
    let mut fields = put_values(alloc, fields, &name, values)?;
    let name = Lent::text(name);
    let value = Lent::octets(value);
    fields.push(Field { name, value })?;
    Ok(fields)
}

/// The fields with further ones behind them.
#[tactic(auto, unfolding(crate::specs::Fields::added))]
pub(crate) fn added<'r>(
    alloc: Global,
    changes: List<FilledField>,
    fields: List<Field<'r>>,
) -> Result<List<Field<'r>>, NoMemory>
    ensures { IfOk result (λ made. made ≡ added changes fields.entry) }
{
    let mut now = fields;
    for change in changes.into_vec() {
        let FilledField { name, values } = change;
        now = put_filled(alloc, now, name, values)?;
    }
    Ok(now)
}

fn without<'r>(name: &Text, fields: List<Field<'r>>) -> List<Field<'r>>
    ensures { result ≡ without name.now fields.entry }
{
    let mut kept = fields.into_vec();
    kept.retain(|field| !field.name.equals(name.as_str().as_bytes()));
    List::from_vec(kept)
}

/// The fields with one after another replaced.
#[tactic(auto, unfolding(crate::specs::Fields::replaced))]
pub(crate) fn replaced<'r>(
    alloc: Global,
    changes: List<FilledField>,
    fields: List<Field<'r>>,
) -> Result<List<Field<'r>>, NoMemory>
    ensures { IfOk result (λ made. made ≡ replaced changes fields.entry) }
{
    let mut now = fields;
    for change in changes.into_vec() {
        let FilledField { name, values } = change;
        let kept = without(&name, now);
        now = put_filled(alloc, kept, name, values)?;
    }
    Ok(now)
}

/// Whether there is a field of that name.
pub(crate) fn has_field(fields: &List<Field<'_>>, name: &str) -> bool
    ensures { result ≡ list_any (is_named name.now) fields.now }
{
    for field in fields.as_slice() {
        if field.name.equals(name.as_bytes()) {
            return true;
        }
    }
    false
}
