//! What a head says of its request: why it is refused, or how its body is delimited.
ghost use Rattle.std.specs.Prelude.{◌≡◌, ◌∷◌, [], ◌+◌, min, true, codes, List, ℕ};
ghost use Rattle.std.specs.List.{list_all};
ghost use Rattle.std.specs.Char.{is_ascii_graphic, is_ascii_digit};
ghost use Rattle.std.specs.Str.Parse.{digits_value};
ghost use Rattle.cd_wire.specs.Fields.{values, IsFound};
ghost use Rattle.cd_wire.specs.Marks.{AreMarks};
ghost use Rattle.cd_wire.specs.declared.fields.Field.{Field as FieldOf};
ghost use Rattle.cd_wire.specs.Framing.{is_host, sized, framing_by_length, framing_by_codings, framing_by, judge};
ghost use Rattle.cd_wire.specs.declared.limits.TheConstants.{MAX_BODY_BYTES};

use crate::fault::WireFault;
use crate::fields::Field;
use crate::framing::Framing;
use crate::head::Head;
use crate::limits::MAX_BODY_BYTES;
use crate::marks::{Found, Marks, listed_marks};
use crate::targets::is_target;
use crate::texts::is_text;

fn all_visible(bytes: &[u8]) -> bool
    ensures { result ≡ list_all is_ascii_graphic bytes.now }
{
    bytes.iter().all(|byte| byte.is_ascii_graphic())
}

// Whether there are as many Host fields as the version wants, of visible bytes.
fn is_host(minor: u8, host: Found<'_>) -> bool
    ensures { (values : List (List ℕ)) → IsFound host.entry values → result ≡ is_host minor values }
{
    match host {
        Found::Nothing => minor == 0,
        Found::One(value) => all_visible(value),
        Found::Several => false,
    }
}

fn all_digits(value: &[u8]) -> bool
    ensures { result ≡ list_all is_ascii_digit value.now }
{
    value.iter().all(|byte| byte.is_ascii_digit())
}

// The number that the digits write, or the least that is too great for a body.
fn number_of(digits: &[u8]) -> usize
    requires { list_all is_ascii_digit digits.now ≡ true }
    ensures { result ≡ min (digits_value 10 digits.now) (MAX_BODY_BYTES + 1) }
{
    let mut number: usize = 0;
    for digit in digits {
        number = (number * 10 + (*digit - b'0') as usize).min(MAX_BODY_BYTES + 1);
    }
    number
}

fn sized(size: usize) -> Result<Framing, WireFault>
    ensures { result ≡ sized size }
{
    if size <= MAX_BODY_BYTES {
        Ok(Framing::Length(size))
    } else {
        Err(WireFault::BodyTooLong)
    }
}

// By one Content-Length.
fn framing_by_value(value: &[u8]) -> Result<Framing, WireFault>
    ensures { result ≡ framing_by_length (value.now ∷ []) }
{
    if !value.is_empty() && all_digits(value) {
        sized(number_of(value))
    } else {
        Err(WireFault::BadLength)
    }
}

// By Content-Length alone.
fn framing_by_length(length: Found<'_>) -> Result<Framing, WireFault>
    ensures { (values : List (List ℕ)) → IsFound length.entry values → result ≡ framing_by_length values }
{
    match length {
        Found::Nothing => Ok(Framing::Length(0)),
        Found::One(value) => framing_by_value(value),
        Found::Several => Err(WireFault::BadLength),
    }
}

// By one Transfer-Encoding alone.
fn framing_by_coding(coding: &[u8]) -> Result<Framing, WireFault>
    ensures { result ≡ framing_by_codings coding.now [] }
{
    if is_text(coding, b"chunked") {
        Ok(Framing::Chunked)
    } else {
        Err(WireFault::UnknownCoding)
    }
}

// Where there is a Transfer-Encoding, which alone gives this framing.
fn framing_if_alone(
    minor: u8,
    length: Found<'_>,
    alone: Result<Framing, WireFault>,
) -> Result<Framing, WireFault>
    ensures { (coding : List ℕ) (codings lengths : List (List ℕ)) → alone ≡ framing_by_codings coding codings
        → IsFound length.entry lengths → result ≡ framing_by minor (coding ∷ codings) lengths }
{
    match length {
        Found::Nothing => {
            if minor == 0 {
                Err(WireFault::BadLength)
            } else {
                alone
            }
        }
        Found::One(_) => Err(WireFault::BadLength),
        Found::Several => Err(WireFault::BadLength),
    }
}

fn framing_by_marks(minor: u8, marks: &Marks<'_>) -> Result<Framing, WireFault>
    ensures { (fields : List FieldOf) → AreMarks fields marks.now
        → result ≡ framing_by minor (values (codes "transfer-encoding") fields) (values (codes "content-length") fields) }
{
    match marks.coding {
        Found::Nothing => framing_by_length(marks.length),
        Found::One(coding) => framing_if_alone(minor, marks.length, framing_by_coding(coding)),
        Found::Several => framing_if_alone(minor, marks.length, Err(WireFault::UnknownCoding)),
    }
}

/// How a body is delimited after a head of this minor version with these fields, or why it is refused (RFC 9112, section 6).
pub fn framing_by(minor: u8, fields: &[Field<'_>]) -> Result<Framing, WireFault>
    ensures { result ≡ framing_by minor (values (codes "transfer-encoding") fields.now)
        (values (codes "content-length") fields.now) }
{
    framing_by_marks(minor, &listed_marks(fields))
}

/// The first fault of the head, or how its body is delimited.
#[tactic(auto, unfolding(crate::specs::Framing::judge))]
pub(crate) fn judge(head: &Head, marks: &Marks<'_>) -> Result<Framing, WireFault>
    requires { AreMarks head.now.fields marks.now }
    ensures { result ≡ judge head.now }
{
    if !is_target(head.method(), head.target()) {
        return Err(WireFault::BadTarget);
    }
    if !is_host(head.minor(), marks.host) {
        return Err(WireFault::BadHost);
    }
    framing_by_marks(head.minor(), marks)
}
