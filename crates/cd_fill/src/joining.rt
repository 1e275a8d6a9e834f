//! Values that stand in one text, with commas between them.
ghost use Rattle.std.specs.Prelude.{◌≡◌, ◌++◌, ◌∷◌, OnOk, if◌then◌else◌};
ghost use Rattle.cd_fill.specs.Values.{with_commas, header_values};

use cd_text::{NoMemory, Octets};
use cd_wire::Fields;

/// Writes one more value.
pub(crate) fn put_next(out: &mut Octets, is_first: bool, value: &[u8]) -> Result<(), NoMemory>
    ensures { OnOk result (out.new ≡ out.old ++ (if is_first then value.now else 44 ∷ value.now)) }
{
    if !is_first {
        out.push(b',')?;
    }
    out.append(value)?;
    Ok(())
}

/// Writes the values of the fields of that name, in any case.
#[tactic(auto, unfolding(crate::specs::Values::header_values, crate::specs::Values::with_commas))]
pub(crate) fn put_header(out: &mut Octets, name: &[u8], fields: Fields<'_>) -> Result<(), NoMemory>
    ensures { OnOk result (out.new ≡ out.old ++ with_commas (header_values name.now fields.entry)) }
{
    let mut is_first = true;
    for field in fields {
        if field.is_called(name) {
            put_next(out, is_first, field.value.as_slice())?;
            is_first = false;
        }
    }
    Ok(())
}
