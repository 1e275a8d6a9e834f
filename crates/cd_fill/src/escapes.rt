//! Comparing what a name or a value of a query stands for with a text, without writing it out: character by character.
ghost use Rattle.std.specs.Prelude.{◌≡◌, ◌≢◌, ℕ, ◌<◌, ◌≤◌, MatchOption, List, [], ◌∷◌, ◌++◌, true, false, length, take, drop};
ghost use Rattle.std.specs.Char.{digit_value, encode_utf8};
ghost use Rattle.std.specs.Str.{bytes_eq};
ghost use Rattle.form_urlencoded.specs.Form.{decode, plus_to_space};
ghost use Rattle.cd_fill.specs.Escapes.{begins_escape, escape_value};
ghost use Rattle.cd_fill.specs.Values.{decoded};

use bstr::decode_lossy;
use cd_text::rest_from;

// The most bytes that a character has in UTF-8.
const MAX_LEN_UTF8: usize = 4;

fn hex_value(byte: u8) -> Option<u8>
    ensures { MatchOption result (16 ≤ digit_value byte) (λ value. (digit_value byte < 16) × (value ≡ digit_value byte)) }
{
    match (byte as char).to_digit(16) {
        Some(value) => Some(value as u8),
        None => None,
    }
}

fn space_for_plus(byte: u8) -> u8
    ensures { result ≡ plus_to_space byte }
{
    if byte == b'+' { b' ' } else { byte }
}

// The byte of the escape that the bytes begin with.
fn escape_of(raw: &[u8]) -> Option<u8>
    ensures { MatchOption result (begins_escape raw.now ≡ false) (λ value. (begins_escape raw.now ≡ true) × (value ≡ escape_value raw.now)) }
{
    if raw.len() < 3 || raw[0] != b'%' {
        return None;
    }
    let high = hex_value(raw[1])?;
    let low = hex_value(raw[2])?;
    Some(16 * high + low)
}

// The first byte that is meant, and what stands behind it.
fn first_meant(raw: &[u8]) -> Option<(u8, &[u8])>
    ensures { MatchOption result (decode raw.now ≡ [])
        (λ first. (decode raw.now ≡ first.0 ∷ decode first.1.now) × (length first.1.now < length raw.now)) }
{
    if raw.is_empty() {
        return None;
    }
    match escape_of(raw) {
        Some(value) => Some((value, rest_from(raw, 3))),
        None => Some((space_for_plus(raw[0]), rest_from(raw, 1))),
    }
}

// Writes the first bytes that are meant, as many as there is room for, and tells how many.
fn write_meant(raw: &[u8], room: &mut [u8]) -> usize
    ensures fits { result ≤ length room.old }
    ensures written { take result room.new ≡ take (length room.old) (decode raw.now) }
{
    let mut left = raw;
    for (place, free) in room.iter_mut().enumerate() {
        let Some((byte, behind)) = first_meant(left) else {
            return place;
        };
        *free = byte;
        left = behind;
    }
    room.len()
}

// What stands behind so many bytes that are meant.
fn behind_meant(raw: &[u8], count: usize) -> &[u8]
    ensures meant { decode result.now ≡ drop count (decode raw.now) }
    ensures within { length result.now ≤ length raw.now }
{
    let mut left = raw;
    for _ in 0..count {
        let Some((_, behind)) = first_meant(left) else {
            return left;
        };
        left = behind;
    }
    left
}

// The first character that is meant, with U+FFFD for bytes that are none, and what stands behind it. Most characters are of
// ASCII, and known by one byte.
fn first_character(raw: &[u8]) -> Option<(char, &[u8])>
    ensures { MatchOption result (decode raw.now ≡ [])
        (λ first. (decoded raw.now ≡ encode_utf8 first.0 ++ decoded first.1.now) × (length first.1.now < length raw.now)) }
{
    let (byte, behind) = first_meant(raw)?;
    if byte.is_ascii() {
        return Some((byte as char, behind));
    }
    let mut room = [0; MAX_LEN_UTF8];
    let count = write_meant(raw, &mut room);
    let (character, size) = decode_lossy(&room[..count]);
    Some((character, behind_meant(behind, size - 1)))
}

// What stands behind a character that the text begins with.
fn behind_character(text: &[u8], character: char) -> Option<&[u8]>
    ensures { MatchOption result ((rest : List ℕ) → text.now ≢ encode_utf8 character ++ rest)
        (λ rest. text.now ≡ encode_utf8 character ++ rest.now) }
{
    let mut room = [0; MAX_LEN_UTF8];
    text.strip_prefix(character.encode_utf8(&mut room).as_bytes())
}

/// Whether a name or a value of a query stands for these bytes. It is read character by character, so no memory is taken.
pub fn stands_for(raw: &[u8], text: &[u8]) -> bool
    ensures { result ≡ bytes_eq (decoded raw.now) text.now }
{
    let mut left = raw;
    let mut wanted = text;
    while let Some((character, behind)) = first_character(left) {
        let Some(rest) = behind_character(wanted, character) else {
            return false;
        };
        left = behind;
        wanted = rest;
    }
    wanted.is_empty()
}
