//! Which fields end at this hop (RFC 9110, section 7.6.1).
ghost use Rattle.std.specs.Prelude.{◌≡◌, ◌||◌, not, codes, filter, IfOk};
ghost use Rattle.std.specs.List.{list_any, slice_split};
ghost use Rattle.cd_wire.specs.Fields.{is_named};
ghost use Rattle.cd_wire.specs.Framing.{is_comma};
ghost use Rattle.cd_proxy.specs.Removed.{is_member, lists, is_listed, is_of_one_hop, is_removed, passed_on};

use crate::own_field::{OwnField, lend};
use cd_text::{List, NoMemory};
use cd_wire::{Field, trimmed};
use std::alloc::Global;

// Whether the member is this name, in any case.
fn is_member(name: &[u8], member: &[u8]) -> bool
    ensures { result ≡ is_member name.now member.now }
{
    trimmed(member).eq_ignore_ascii_case(name)
}

// Whether a member of the list is this name.
fn has_member(name: &[u8], list: &[u8]) -> bool
    ensures { result ≡ list_any (is_member name.now) (slice_split is_comma list.now) }
{
    list.split(|byte| *byte == b',')
        .any(|member| is_member(name, member))
}

fn is_connection(field: &Field<'_>) -> bool
    ensures { result ≡ is_named (codes "connection") field.now }
{
    field.name.equals(b"connection")
}

fn lists(name: &[u8], field: &Field<'_>) -> bool
    ensures { result ≡ lists name.now field.now }
{
    is_connection(field) && has_member(name, field.value.as_slice())
}

fn is_listed(fields: &[Field<'_>], name: &[u8]) -> bool
    ensures { result ≡ is_listed fields.now name.now }
{
    fields.iter().any(|field| lists(name, field))
}

#[tactic(auto, unfolding(crate::specs::Removed::is_of_one_hop))]
fn is_of_one_hop(field: &Field<'_>) -> bool
    ensures { result ≡ is_of_one_hop field.now }
{
    let name = &field.name;
    name.equals(b"connection")
        || name.equals(b"keep-alive")
        || name.equals(b"proxy-authenticate")
        || name.equals(b"proxy-authorization")
        || name.equals(b"te")
        || name.equals(b"trailer")
        || name.equals(b"transfer-encoding")
        || name.equals(b"upgrade")
        || name.equals(b"content-length")
}

fn is_removed(fields: &[Field<'_>], field: &Field<'_>) -> bool
    ensures { result ≡ is_removed fields.now field.now }
{
    is_of_one_hop(field) || is_listed(fields, field.name.as_slice())
}

/// The fields that are passed on of these, which are given twice.
pub(crate) fn passed_on<'r>(fields: List<Field<'r>>, all: &[Field<'_>]) -> List<Field<'r>>
    requires { fields ≡ all.now }
    ensures { result ≡ passed_on all.now }
{
    let mut kept = fields.into_vec();
    kept.retain(|field| !is_removed(all, field));
    List::from_vec(kept)
}

// The fields that list names of others.
fn connection_fields(alloc: Global, fields: &[OwnField]) -> Result<List<OwnField>, NoMemory>
    ensures { IfOk result (λ found. found ≡ filter (is_named (codes "connection")) fields.now) }
{
    let mut found = Vec::new(alloc);
    for field in fields {
        if is_connection(&field.lent()) {
            found.push(field.copy(alloc)?)?;
        }
    }
    Ok(List::from_vec(found))
}

// The fields that are passed on, where these are the ones that list names.
fn without_removed(fields: List<OwnField>, connections: &[Field<'_>]) -> List<OwnField>
    ensures { result ≡ filter (λ field. not (is_removed connections.now field)) fields }
{
    let mut kept = fields.into_vec();
    kept.retain(|field| !is_removed(connections, &field.lent()));
    List::from_vec(kept)
}

/// The fields that are passed on of a response. Memory is taken for its Connection fields alone.
pub(crate) fn passed_own(alloc: Global, fields: List<OwnField>) -> Result<List<OwnField>, NoMemory>
    ensures { IfOk result (λ kept. kept ≡ passed_on fields) }
{
    let connections = connection_fields(alloc, fields.as_slice())?;
    let lent = lend(alloc, connections.as_slice())?;
    Ok(without_removed(fields, lent.as_slice()))
}
