//! The values of a query.
ghost use Rattle.std.specs.Prelude.{◌≡◌, ◌++◌, ◌∷◌, OnOk, if◌then◌else◌};
ghost use Rattle.cd_fill.specs.Values.{with_commas, decoded, query_values};

use crate::escapes::stands_for;
use crate::joining::put_next;
use cd_text::{NoMemory, Octets};
use form_urlencoded::{decode, raw_pairs};
use std::alloc::Global;

fn put_decoded(
    alloc: Global,
    out: &mut Octets,
    is_first: bool,
    value: &[u8],
) -> Result<(), NoMemory>
    ensures { OnOk result (out.new
        ≡ out.old ++ (if is_first then decoded value.now else 44 ∷ decoded value.now)) }
{
    let value = decode(alloc, value)?;
    put_next(out, is_first, value.as_bytes())
}

/// Writes the values of a key of the query.
#[tactic(auto, unfolding(crate::specs::Values::query_values, crate::specs::Values::with_commas))]
pub(crate) fn put_query(
    alloc: Global,
    out: &mut Octets,
    key: &[u8],
    query: &[u8],
) -> Result<(), NoMemory>
    ensures { OnOk result (out.new ≡ out.old ++ with_commas (query_values key.now query.now)) }
{
    let mut is_first = true;
    for (name, value) in raw_pairs(query) {
        if stands_for(name, key) {
            put_decoded(alloc, out, is_first, value)?;
            is_first = false;
        }
    }
    Ok(())
}
