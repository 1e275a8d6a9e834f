//! How far the body of a response goes (RFC 9112, section 6.3).
ghost use Rattle.std.specs.Prelude.{◌≡◌, [], codes, IsTrue, ◌↔◌, IfOk};
ghost use Rattle.cd_wire.specs.Fields.{values};
ghost use Rattle.cd_proxy.specs.Responses.{has_no_body, extent_by, extent_of, framed};

use crate::head::Head;
use crate::own_field::lend;
use cd_text::NoMemory;
use cd_wire::{Field, Framing, WireFault, framing_by};
use std::alloc::Global;

/// How far the body of a response goes.
#[derive(Clone, Copy, Debug)]
pub(crate) enum Extent {
    /// As its fields say.
    Framed(Framing),
    /// Up to the end of the connection.
    ToEnd,
}

fn has_no_body(head: bool, status: u16) -> bool
    ensures { result ≡ has_no_body head status }
{
    head || status == 204 || status == 304
}

// Whether no field has that name.
fn has_none(fields: &[Field<'_>], name: &[u8]) -> bool
    ensures { IsTrue result ↔ (values name.now fields.now ≡ []) }
{
    for field in fields {
        if field.name.equals(name) {
            return false;
        }
    }
    true
}

fn framed(framing: Result<Framing, WireFault>) -> Option<Extent>
    ensures { result ≡ framed framing }
{
    match framing {
        Ok(framing) => Some(Extent::Framed(framing)),
        Err(_) => None,
    }
}

fn extent_by(minor: u8, fields: &[Field<'_>]) -> Option<Extent>
    ensures { result ≡ extent_by minor (values (codes "transfer-encoding") fields.now) (values (codes "content-length") fields.now) }
{
    if has_none(fields, b"transfer-encoding") && has_none(fields, b"content-length") {
        Some(Extent::ToEnd)
    } else {
        framed(framing_by(minor, fields))
    }
}

/// How far the body goes after a head, where its fields are not refused. `head` says that the request was HEAD.
#[tactic(auto, unfolding(crate::specs::Responses::extent_of))]
pub(crate) fn extent_of(
    alloc: Global,
    head: bool,
    response: &Head,
) -> Result<Option<Extent>, NoMemory>
    ensures { IfOk result (λ extent. extent ≡ extent_of head response.now) }
{
    if has_no_body(head, response.status) {
        return Ok(Some(Extent::Framed(Framing::Length(0))));
    }
    let fields = lend(alloc, response.fields.as_slice())?;
    Ok(extent_by(response.minor, fields.as_slice()))
}
