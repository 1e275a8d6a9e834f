//! The body of a response, which may come in any pieces.
ghost use Rattle.std.specs.Prelude.{◌≡◌, ℕ, Bool, List, [], IfOk, OnErr};
ghost use Rattle.cd_wire.specs.Reading.{IsBodyKept};
ghost use Rattle.cd_proxy.specs.Reading.{extent_kept, IsContentKept, IsContentRead};

use crate::delimiting::Extent;
use cd_text::{NoMemory, Octets};
use cd_wire::{Body, BodyRead, MAX_BODY_BYTES, read_body, unread};
use std::alloc::Global;

/// What is known of a body that has not come whole.
#[derive(Drop)]
pub(crate) enum Content {
    /// Its fields delimit it.
    Framed(Body),
    /// It goes up to the end of the connection, and none of it was read.
    ToEnd,
}

/// What a text begins with where a body goes on: what is left of the body, and how much of the text that is; no end of it yet, and
/// how much of the text was read; or nothing that can become one.
#[derive(Drop)]
pub(crate) enum ContentRead {
    Whole(Octets, usize),
    Going(usize),
    Refused,
}

/// Nothing was read of the body yet.
pub(crate) fn begun(alloc: Global, extent: Extent) -> Content
    ensures extent { extent ≡ extent_kept result }
    ensures kept { IsContentKept [] result }
{
    match extent {
        Extent::Framed(framing) => Content::Framed(unread(alloc, framing)),
        Extent::ToEnd => Content::ToEnd,
    }
}

fn read_framed(alloc: Global, text: &[u8], body: &mut Body) -> Result<ContentRead, NoMemory>
    requires { (before : List ℕ) × IsBodyKept before body.old }
    ensures ok { (ended : Bool) → IfOk result (IsContentRead ended (Content.Framed body.old) text.now (Content.Framed body.new)) }
    ensures err { OnErr result (body.new ≡ body.old) }
{
    let read = read_body(alloc, text, body)?;
    match read {
        BodyRead::Whole(found, len) => Ok(ContentRead::Whole(found, len)),
        BodyRead::Going(len) => Ok(ContentRead::Going(len)),
        BodyRead::Refused(_fault) => Ok(ContentRead::Refused),
    }
}

#[tactic(auto, using(crate::proofs::ContentLemmas::end_too_long, crate::proofs::ContentLemmas::end_open, crate::proofs::ContentLemmas::end_whole))]
fn read_to_end(alloc: Global, text: &[u8], ended: bool) -> Result<ContentRead, NoMemory>
    ensures { IfOk result (IsContentRead ended Content.ToEnd text.now Content.ToEnd) }
{
    if text.len() > MAX_BODY_BYTES {
        return Ok(ContentRead::Refused);
    }
    if !ended {
        return Ok(ContentRead::Going(0));
    }
    Ok(ContentRead::Whole(Octets::from_slice(alloc, text)?, text.len()))
}

/// Reads a body on, of which this is known, in the text that follows what was read. `ended` says that nothing follows the text.
///
/// Where nothing is found, and at `NoMemory`, the body is as before.
pub(crate) fn read_content(
    alloc: Global,
    text: &[u8],
    ended: bool,
    content: &mut Content,
) -> Result<ContentRead, NoMemory>
    requires { (before : List ℕ) × IsContentKept before content.old }
    ensures ok { IfOk result (IsContentRead ended content.old text.now content.new) }
    ensures err { OnErr result (content.new ≡ content.old) }
{
    match content {
        Content::Framed(body) => read_framed(alloc, text, body),
        Content::ToEnd => read_to_end(alloc, text, ended),
    }
}
