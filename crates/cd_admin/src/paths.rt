//! Parts of a path between slashes.
ghost use Rattle.std.specs.Prelude.{◌≡◌, map, reverse, IfOk};
ghost use Rattle.std.specs.Option.{option_copied};
ghost use Rattle.std.specs.Result.{result_map_both};
ghost use Rattle.cd_text.specs.Gives.{Gives};
ghost use Rattle.cd_admin.specs.Endpoints.{skip_slashes, without_last_slashes, text_in, parts_of};

use crate::denial::Denial;
use crate::ending::Ending;
use cd_text::{List, NoMemory, Text, parts_of};
use std::alloc::Global;

/// The bytes without the slashes in front.
pub(crate) fn without_first_slashes(mut bytes: &[u8]) -> &[u8]
    ensures { result.now ≡ skip_slashes bytes.entry.now }
{
    while let [first, rest @ ..] = bytes
        && *first == b'/'
    {
        bytes = rest;
    }
    bytes
}

/// The bytes without the slashes at the end.
pub(crate) fn without_last_slashes(mut bytes: &[u8]) -> &[u8]
    ensures { result.now ≡ without_last_slashes bytes.entry.now }
{
    while let [rest @ .., last] = bytes
        && *last == b'/'
    {
        bytes = rest;
    }
    bytes
}

/// The parts between slashes, where the bytes are a text. No bytes have no parts.
pub(crate) fn split(alloc: Global, bytes: &[u8]) -> Result<Vec<&str>, Ending>
    ensures { Gives Ending.NoMemory
        (result_map_both (λ parts. map (λ part. part.now) parts.items) (λ ending. ending) result)
        (parts_of bytes.now) }
{
    if bytes.is_empty() {
        return Ok(Vec::new(alloc));
    }
    let Some(text) = text_in(bytes) else {
        return Err(Ending::Denied(Denial::UnknownPath));
    };
    Ok(parts_of(alloc, text, '/')?)
}

/// The bytes as a text, where they are UTF-8.
fn text_in(bytes: &[u8]) -> Option<&str>
    ensures { option_copied result ≡ text_in bytes.now }
{
    match str::from_utf8(bytes) {
        Ok(text) => Some(text),
        Err(_) => None,
    }
}

/// Copies of the parts.
pub(crate) fn copies(alloc: Global, parts: &[&str]) -> Result<List<Text>, NoMemory>
    ensures { IfOk result (λ texts. texts ≡ map (λ part. part.now) parts.now) }
{
    let mut texts = List::new(alloc);
    for part in parts {
        texts.push(Text::from_str(alloc, part)?)?;
    }
    Ok(texts)
}
