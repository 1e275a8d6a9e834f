//! What a head asks for: whether the connection closes, and the path.
ghost use Rattle.std.specs.Prelude.{◌≡◌, ◌<◌, [], ◌∷◌, length, IfOk, IfSome, IfNone};
ghost use Rattle.std.specs.List.{list_all, list_any, slice_split, position};
ghost use Rattle.cd_wire.specs.Framing.{is_comma, is_close};
ghost use Rattle.cd_wire.specs.Kept.{is_no_percent, IsPath};

use crate::texts::{is_text, rest_from, trimmed};
use cd_text::{NoMemory, Octets};
use percent_encoding::percent_decode;
use std::alloc::Global;

fn is_close(member: &[u8]) -> bool
    ensures { result ≡ is_close member.now }
{
    is_text(trimmed(member), b"close")
}

fn comma(list: &[u8]) -> Option<usize>
    ensures { result ≡ position is_comma list.now }
{
    list.iter().position(|byte| *byte == b',')
}

// The first member of a list, and what stands behind its comma; `None` where there is no comma.
#[tactic(auto, using(crate::proofs::MemberLemmas::members_cut, crate::proofs::MemberLemmas::comma_within, crate::proofs::MemberLemmas::no_comma))]
fn first_member(list: &[u8]) -> Option<(&[u8], &[u8])>
    ensures some { IfSome result (λ cut. slice_split is_comma list.now
        ≡ cut.0.now ∷ slice_split is_comma cut.1.now) }
    ensures shorter { IfSome result (λ cut. length cut.1.now < length list.now) }
    ensures none { IfNone result (slice_split is_comma list.now ≡ list.now ∷ []) }
{
    match comma(list) {
        Some(end) => Some((&list[..end], rest_from(list, end + 1))),
        None => None,
    }
}

/// Whether a member of the list is `close`.
pub(crate) fn any_close(mut list: &[u8]) -> bool
    ensures { result ≡ list_any is_close (slice_split is_comma list.now) }
{
    while let Some((member, rest)) = first_member(list) {
        if is_close(member) {
            return true;
        }
        list = rest;
    }
    is_close(list)
}

fn has_no_escapes(raw: &[u8]) -> bool
    ensures { result ≡ list_all is_no_percent raw.now }
{
    raw.iter().all(|byte| *byte != b'%')
}

/// The path with its escapes read, where it has any.
#[tactic(auto, using(crate::proofs::PathLemmas::no_escapes))]
pub(crate) fn read_path(alloc: Global, raw: &[u8]) -> Result<Option<Octets>, NoMemory>
    ensures { IfOk result (λ path. IsPath path raw.now) }
{
    if has_no_escapes(raw) {
        return Ok(None);
    }
    let mut path = Vec::new(alloc);
    percent_decode(raw).append_to(&mut path)?;
    Ok(Some(Octets::from_vec(path)))
}
