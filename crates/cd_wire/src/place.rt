ghost use Rattle.std.specs.Prelude.{◌≡◌, ◌++◌, length, map, slice_range, IfOk, OnOk};
ghost use Rattle.std.specs.Char.{to_ascii_lowercase};
ghost use Rattle.cd_wire.specs.Places.{IsPlaceIn, IsWritten};

use crate::rendering::put;
use cd_text::NoMemory;

/// Where two parts lie in bytes, one after the other, as the name and the value of a field.
///
///     .. name value ..
///        start      end
///            middle
#[derive(Clone, Copy, Debug)]
pub(crate) struct Place {
    pub start: usize,
    pub middle: usize,
    pub end: usize,
}

/// The first part.
pub(crate) fn first_at(bytes: &[u8], place: Place) -> &[u8]
    requires { IsPlaceIn (length bytes.now) place }
    ensures { result.now ≡ slice_range bytes.now place.start place.middle }
{
    &bytes[place.start..place.middle]
}

/// The second part.
pub(crate) fn second_at(bytes: &[u8], place: Place) -> &[u8]
    requires { IsPlaceIn (length bytes.now) place }
    ensures { result.now ≡ slice_range bytes.now place.middle place.end }
{
    &bytes[place.middle..place.end]
}

// Writes a text in lower case. It is written at once, and changed where it then is.
fn put_lowered(out: &mut Vec<u8>, text: &[u8]) -> Result<(), NoMemory>
    ensures { OnOk result (out.new.items ≡ out.old.items ++ map to_ascii_lowercase text.now) }
{
    let start = out.len();
    put(out, text)?;
    lower(&mut out.as_mut_slice()[start..]);
    Ok(())
}

fn lower(text: &mut [u8])
    ensures { text.new ≡ map to_ascii_lowercase text.old }
{
    for byte in text.iter_mut() {
        *byte = byte.to_ascii_lowercase();
    }
}

/// Writes two parts, the first in lower case.
pub(crate) fn put_lowered_parts(
    out: &mut Vec<u8>,
    first: &[u8],
    second: &[u8],
) -> Result<Place, NoMemory>
    ensures { IfOk result (IsWritten out.old.items (map to_ascii_lowercase first.now) second.now out.new.items) }
{
    let start = out.len();
    put_lowered(out, first)?;
    let middle = out.len();
    put(out, second)?;
    let end = out.len();
    Ok(Place { start, middle, end })
}

/// Writes two parts.
pub(crate) fn put_parts(out: &mut Vec<u8>, first: &[u8], second: &[u8]) -> Result<Place, NoMemory>
    ensures { IfOk result (IsWritten out.old.items first.now second.now out.new.items) }
{
    let start = out.len();
    put(out, first)?;
    let middle = out.len();
    put(out, second)?;
    let end = out.len();
    Ok(Place { start, middle, end })
}
