//! The texts of settings, filled in a scene.
ghost use Rattle.cd_text.specs.Gives.{Gives};
ghost use Rattle.cd_handlers.specs.declared.fault.HandlerFault.{HandlerFault};
ghost use Rattle.cd_handlers.specs.Filling.{text_filled, all_filled, fields_filled};

use crate::fault::HandlerFault;
use crate::field_values::FieldValues;
use crate::fields::FilledField;
use cd_fill::{Scene, fill, fill_lent};
use cd_text::{List, Octets, Text};
use cd_wire::Lent;
use std::alloc::Global;

#[tactic(auto, unfolding(crate::specs::Filling::text_filled))]
pub(crate) fn text_filled(
    alloc: Global,
    text: &Text,
    scene: &Scene<'_>,
) -> Result<Octets, HandlerFault>
    ensures { Gives HandlerFault.NoMemory result (text_filled scene.now text.now) }
{
    let filled = fill(alloc, text, scene)?;
    Ok(filled)
}

/// The same, lent by a text that stands for itself.
#[tactic(auto, unfolding(crate::specs::Filling::text_filled))]
pub(crate) fn text_lent<'r>(
    alloc: Global,
    text: &'r Text,
    scene: &Scene<'_>,
) -> Result<Lent<'r, u8>, HandlerFault>
    ensures { Gives HandlerFault.NoMemory result (text_filled scene.now text.now) }
{
    let filled = fill_lent(alloc, text, scene)?;
    Ok(filled)
}

#[tactic(auto, unfolding(crate::specs::Filling::all_filled))]
fn all_filled(
    alloc: Global,
    texts: &List<Text>,
    scene: &Scene<'_>,
) -> Result<List<Octets>, HandlerFault>
    ensures { Gives HandlerFault.NoMemory result (all_filled scene.now texts.now) }
{
    let mut values = List::new(alloc);
    for text in texts.as_slice() {
        values.push(text_filled(alloc, text, scene)?)?;
    }
    Ok(values)
}

#[tactic(auto, unfolding(crate::specs::Filling::fields_filled))]
pub(crate) fn fields_filled(
    alloc: Global,
    settings: &List<FieldValues>,
    scene: &Scene<'_>,
) -> Result<List<FilledField>, HandlerFault>
    ensures { Gives HandlerFault.NoMemory result (fields_filled scene.now settings.now) }
{
    let mut fields = List::new(alloc);
    for setting in settings.as_slice() {
        let values = all_filled(alloc, &setting.values, scene)?;
        let name = setting.name.copy(alloc)?;
        fields.push(FilledField { name, values })?;
    }
    Ok(fields)
}
