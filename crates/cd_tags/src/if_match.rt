ghost use Rattle.std.specs.Prelude.{◌≡◌, ◌==◌, length, Err, IfOk, IsTrue};
ghost use Rattle.std.specs.List.{list_all, slice_split};
ghost use Rattle.cd_text.specs.Gives.{Gives};
ghost use Rattle.cd_tags.specs.IfMatch.{IsTagOf, is_lower_hex, is_path_byte, decoded, all_decoded, parts_of_path};
ghost use Rattle.cd_tags.specs.Encoding.{is_unreserved};
ghost use Rattle.cd_tags.specs.Framed.{tag_in, is_framed, is_closing};
ghost use Rattle.cd_tags.specs.declared.fault.IfMatchFault.TheVariants.{Malformed};
ghost use Rattle.cd_tags.specs.declared.if_match.Tag.{Tag};

use crate::fault::IfMatchFault;
use crate::limits::{CLOSING_BYTES, OPENING_BYTES};
use cd_text::{List, NoMemory, Text, escapes_are_whole, parts_of};
use cd_tree::Path;
use percent_encoding::percent_decode;
use std::alloc::Global;

/// What a tag says: these are the digits of what stands at this path.
#[derive(Debug, Drop)]
pub struct Tag {
    pub path: Path,
    /// The hexadecimal digits of a digest.
    pub hex: Text,
}

/// The tag of a value of the field If-Match (RFC 9110, section 13.1.1), which has the one form that `tag` writes, with any
/// bytes of the path escaped, in digits of either case.
///
/// It answers Malformed exactly where the value has another form: where the fixed bytes are not `"/config/` in front and a
/// space, 64 lower-case hexadecimal digits and `"` at the end, or where the path between them has a byte other than
/// letters, digits, `-._~`, `/` and whole escapes `%XX`, or a part that decodes to no UTF-8. The path is split at each `/`
/// before it is decoded, and where nothing stands there it is the empty one.
pub fn read_if_match(alloc: Global, value: &[u8]) -> Result<Tag, IfMatchFault>
    ensures tag { IfOk result (IsTagOf value.now) }
    ensures malformed { result ≡ Err Malformed → (tag : Tag) → IsTagOf value.now tag → ⊥ }
{
    read_tag(alloc, value)
}

/// The same by the places in the value.
fn read_tag(alloc: Global, value: &[u8]) -> Result<Tag, IfMatchFault>
    ensures { Gives IfMatchFault.NoMemory result (tag_in value.now) }
{
    if !is_framed(value) {
        return Err(IfMatchFault::Malformed);
    }
    let end = value.len() - CLOSING_BYTES;
    let parts = parts_of_path(alloc, &value[OPENING_BYTES..end])?;
    let closing = &value[end..];
    let hex = hex_text(alloc, &closing[1..CLOSING_BYTES - 1])?;
    Ok(Tag {
        path: Path { parts },
        hex,
    })
}

/// Whether the fixed bytes stand around a path.
fn is_framed(value: &[u8]) -> bool
    ensures { result ≡ is_framed value.now }
{
    value.len() >= OPENING_BYTES + CLOSING_BYTES
        && value.starts_with(b"\"/config/".as_slice())
        && is_closing(&value[value.len() - CLOSING_BYTES..])
}

/// Whether these are a space, digits and a quote.
fn is_closing(closing: &[u8]) -> bool
    requires { length closing.now ≡ CLOSING_BYTES }
    ensures { result ≡ is_closing closing.now }
{
    closing[0] == b' '
        && closing[CLOSING_BYTES - 1] == b'"'
        && are_digits(&closing[1..CLOSING_BYTES - 1])
}

fn are_digits(bytes: &[u8]) -> bool
    ensures { result ≡ list_all is_lower_hex bytes.now }
{
    bytes.iter().all(|byte| is_lower_hex(*byte))
}

fn is_lower_hex(byte: u8) -> bool
    ensures { result ≡ is_lower_hex byte }
{
    (b'0' <= byte && byte <= b'9') || (b'a' <= byte && byte <= b'f')
}

/// The digits as a text.
fn hex_text(alloc: Global, digits: &[u8]) -> Result<Text, NoMemory>
    requires { IsTrue (list_all is_lower_hex digits.now) }
    ensures { IfOk result (λ text. text ≡ digits.now) }
{
    match str::from_utf8(digits) {
        Ok(text) => Text::from_str(alloc, text),
        Err(_) => unreachable!(),
    }
}

/// The decoded parts of a path.
fn parts_of_path(alloc: Global, path: &[u8]) -> Result<List<Text>, IfMatchFault>
    ensures { Gives IfMatchFault.NoMemory result (parts_of_path path.now) }
{
    if !are_path_bytes(path) {
        return Err(IfMatchFault::Malformed);
    }
    if path.is_empty() {
        return Ok(List::new(alloc));
    }
    all_decoded(alloc, path_text(path))
}

fn are_path_bytes(path: &[u8]) -> bool
    ensures { result ≡ list_all is_path_byte path.now }
{
    path.iter().all(|byte| is_path_byte(*byte))
}

fn is_path_byte(byte: u8) -> bool
    ensures { result ≡ is_path_byte byte }
{
    is_unreserved(byte) || byte == b'%' || byte == b'/'
}

fn is_unreserved(byte: u8) -> bool
    ensures { result ≡ is_unreserved byte }
{
    byte == b'~' || byte == b'_' || byte == b'.' || byte == b'-' || byte.is_ascii_alphanumeric()
}

/// The path as a text.
fn path_text(path: &[u8]) -> &str
    requires { IsTrue (list_all is_path_byte path.now) }
    ensures { result.now ≡ path.now }
{
    match str::from_utf8(path) {
        Ok(text) => text,
        Err(_) => unreachable!(),
    }
}

/// The parts between the places of `/`, each decoded.
fn all_decoded(alloc: Global, path: &str) -> Result<List<Text>, IfMatchFault>
    ensures { Gives IfMatchFault.NoMemory result (all_decoded (slice_split (λ b. b == 47) path.now)) }
{
    let mut parts = List::new(alloc);
    let found = parts_of(alloc, path, '/')?;
    for part in found.as_slice() {
        parts.push(decoded(alloc, part)?)?;
    }
    Ok(parts)
}

/// What a part decodes to.
fn decoded(alloc: Global, part: &str) -> Result<Text, IfMatchFault>
    ensures { Gives IfMatchFault.NoMemory result (decoded part.now) }
{
    if !escapes_are_whole(part.as_bytes()) {
        return Err(IfMatchFault::Malformed);
    }
    let mut bytes = Vec::new(alloc);
    percent_decode(part.as_bytes()).append_to(&mut bytes)?;
    match str::from_utf8(bytes.as_slice()) {
        Ok(text) => Ok(Text::from_str(alloc, text)?),
        Err(_) => Err(IfMatchFault::Malformed),
    }
}
