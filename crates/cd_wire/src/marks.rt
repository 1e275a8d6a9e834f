//! What the fields of a head say of its request.
ghost use Rattle.std.specs.Prelude.{◌≡◌, ◌&&◌, ℕ, false, List, [], ◌∷◌, ◌++◌, length, codes};
ghost use Rattle.std.specs.List.{list_any, slice_split};
ghost use Rattle.std.specs.Str.{bytes_eq};
ghost use Rattle.cd_wire.specs.Fields.{values, IsFound};
ghost use Rattle.cd_wire.specs.Framing.{is_comma, is_close, first_or_empty};
ghost use Rattle.cd_wire.specs.Marks.{noted_value, IsWanted, IsMarked, AreMarks};
ghost use Rattle.cd_wire.specs.Places.{ArePlacesIn, fields_at};

use crate::asking::any_close;
use crate::fields::Field;
use crate::place::{Place, first_at, second_at};

/// How many fields have a name: none, one with its value, or more.
#[derive(Clone, Copy, Debug)]
pub(crate) enum Found<'a> {
    Nothing,
    One(&'a [u8]),
    Several,
}

/// What the fields say of a request: for which host it is, how it is delimited, and whether the connection closes after it.
#[derive(Clone, Copy, Debug)]
pub(crate) struct Marks<'a> {
    pub host: Found<'a>,
    pub coding: Found<'a>,
    pub length: Found<'a>,
    /// Whether a Connection field has the member `close`.
    pub closing: bool,
}

// What was found, and then one more value.
fn one_more<'a>(found: Found<'a>, value: &'a [u8]) -> Found<'a>
    ensures { (before : List (List ℕ)) → IsFound found.entry before
        → IsFound result (before ++ value.now ∷ []) }
{
    match found {
        Found::Nothing => Found::One(value),
        Found::One(_) => Found::Several,
        Found::Several => Found::Several,
    }
}

// What was found of a name, and then a field of this name and value.
fn noted<'a>(found: Found<'a>, wanted: &[u8], name: &[u8], value: &'a [u8]) -> Found<'a>
    ensures { (before : List (List ℕ)) → IsFound found.entry before
        → IsFound result (before ++ noted_value wanted.now name.now value.now) }
{
    if name == wanted {
        one_more(found, value)
    } else {
        found
    }
}

// Whether a name that is looked for has so many bytes. Most fields are passed over at once.
fn has_wanted_length(name: &[u8]) -> bool
    ensures { result ≡ false → (wanted : List ℕ) → IsWanted wanted → bytes_eq name.now wanted ≡ false }
{
    match name.len() {
        4 | 10 | 14 | 17 => true,
        _ => false,
    }
}

// Whether a field of this name and value asks to close the connection.
fn closes(name: &[u8], value: &[u8]) -> bool
    ensures { result ≡ (bytes_eq name.now (codes "connection") && list_any is_close (slice_split is_comma value.now)) }
{
    name == b"connection".as_slice() && any_close(value)
}

// What was found, and then a field of this name and value.
fn marked<'a>(marks: Marks<'a>, name: &[u8], value: &'a [u8]) -> Marks<'a>
    ensures { IsMarked marks.entry name.now value.now result }
{
    if !has_wanted_length(name) {
        return marks;
    }
    Marks {
        host: noted(marks.host, b"host", name, value),
        coding: noted(marks.coding, b"transfer-encoding", name, value),
        length: noted(marks.length, b"content-length", name, value),
        closing: marks.closing || closes(name, value),
    }
}

/// What is found in the fields at these places, in one pass.
pub(crate) fn marks_of<'a>(bytes: &'a [u8], places: &[Place]) -> Marks<'a>
    requires { ArePlacesIn (length bytes.now) places.now }
    ensures { AreMarks (fields_at bytes.now places.now) result }
{
    let mut marks = Marks {
        host: Found::Nothing,
        coding: Found::Nothing,
        length: Found::Nothing,
        closing: false,
    };
    for place in places {
        marks = marked(marks, first_at(bytes, *place), second_at(bytes, *place));
    }
    marks
}

/// What is found in the fields of a list, in one pass.
pub(crate) fn listed_marks<'a>(fields: &'a [Field<'_>]) -> Marks<'a>
    ensures { AreMarks fields.now result }
{
    let mut marks = Marks {
        host: Found::Nothing,
        coding: Found::Nothing,
        length: Found::Nothing,
        closing: false,
    };
    for field in fields {
        marks = marked(marks, field.name.as_slice(), field.value.as_slice());
    }
    marks
}

/// The value of the first field of that name, and nothing where there is none.
pub(crate) fn first_value<'a>(bytes: &'a [u8], places: &[Place], name: &[u8]) -> &'a [u8]
    requires { ArePlacesIn (length bytes.now) places.now }
    ensures { result.now ≡ first_or_empty (values name.now (fields_at bytes.now places.now)) }
{
    for place in places {
        if first_at(bytes, *place) == name {
            return second_at(bytes, *place);
        }
    }
    b""
}
