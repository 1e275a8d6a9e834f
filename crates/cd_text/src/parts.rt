//! Parts of texts and of bytes.
ghost use Rattle.std.specs.Prelude.{◌≡◌, ◌<◌, ◌==◌, map, IfOk, MatchOption, length, drop};
ghost use Rattle.std.specs.List.{slice_split, before_first, after_first, position, position_or_len};

use crate::NoMemory;
use std::alloc::Global;

/// The parts of a text between the places of a separator, an ASCII character. The empty text has one empty part.
pub fn parts_of(alloc: Global, text: &str, separator: char) -> Result<Vec<&str>, NoMemory>
    requires { separator < 128 }
    ensures { IfOk result (λ parts. map (λ part. part.now) parts.items ≡ slice_split (λ byte. byte == separator) text.now) }
{
    match text.split(separator).collect(alloc) {
        Ok(parts) => Ok(parts),
        Err(_) => Err(NoMemory),
    }
}

fn place_of(text: &[u8], byte: u8) -> Option<usize>
    ensures { result ≡ position (λ other. other == byte) text.now }
{
    text.iter().position(|other| *other == byte)
}

/// What comes before the first such byte, and what follows it; `None` where there is no such byte.
pub fn split_at_byte(text: &[u8], byte: u8) -> Option<(&[u8], &[u8])>
    ensures { MatchOption result (position_or_len (λ other. other == byte) text.now ≡ length text.now)
        (λ parts. (position_or_len (λ other. other == byte) text.now < length text.now)
        × (parts.0.now ≡ before_first (λ other. other == byte) text.now)
        × (parts.1.now ≡ after_first (λ other. other == byte) text.now)) }
{
    match place_of(text, byte) {
        Some(end) => Some((&text[..end], &text[end + 1..])),
        None => None,
    }
}

/// What follows so many bytes: nothing, where there are no more.
pub fn rest_from(text: &[u8], count: usize) -> &[u8]
    ensures { result.now ≡ drop count text.now }
{
    if count < text.len() {
        &text[count..]
    } else {
        &[]
    }
}
