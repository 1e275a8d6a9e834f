//! What the fields of a request say.
ghost use Rattle.std.specs.Prelude.{◌≡◌, map, IfOk};
ghost use Rattle.std.specs.List.{list_any, before_first, position};
ghost use Rattle.std.specs.Str.{bytes_eq};
ghost use Rattle.cd_wire.specs.Fields.{is_named, values};
ghost use Rattle.cd_admin.specs.Fields.{trimmed, is_semicolon, is_json_type, is_caddyfile_type, are_json, are_caddyfile, is_must_revalidate, has_must_revalidate, is_revalidating, must_revalidate};

use cd_text::NoMemory;
use cd_wire::Field;
use std::alloc::Global;

/// The values of the fields of a name in lower case, in their order.
pub(crate) fn values_of<'a>(
    alloc: Global,
    fields: &'a [Field<'_>],
    name: &str,
) -> Result<Vec<&'a [u8]>, NoMemory>
    ensures { IfOk result (λ found. map (λ value. value.now) found.items ≡ values name.now fields.now) }
{
    let mut found = Vec::new(alloc);
    for field in fields {
        if field.name.equals(name.as_bytes()) {
            found.push(field.value.as_slice())?;
        }
    }
    Ok(found)
}

/// The bytes without the white space around them.
fn trimmed(bytes: &[u8]) -> &[u8]
    ensures { result.now ≡ trimmed bytes.now }
{
    bytes.trim_ascii()
}

// ---- Content-Type

/// Whether the body is JSON by the values of Content-Type.
pub(crate) fn are_json(alloc: Global, values: &[&[u8]]) -> Result<bool, NoMemory>
    ensures { IfOk result (λ answer. answer ≡ are_json (map (λ value. value.now) values.now)) }
{
    match values {
        [] => Ok(true),
        [value, ..] => is_json_type(alloc, value),
    }
}

/// Whether it is a Caddyfile by them.
pub(crate) fn are_caddyfile(values: &[&[u8]]) -> bool
    ensures { result ≡ are_caddyfile (map (λ value. value.now) values.now) }
{
    match values {
        [] => false,
        [value, ..] => is_caddyfile_type(value),
    }
}

fn is_json_type(alloc: Global, value: &[u8]) -> Result<bool, NoMemory>
    ensures { IfOk result (λ answer. answer ≡ is_json_type value.now) }
{
    let kind = trimmed(without_parameters(value)).to_ascii_lowercase(alloc)?;
    Ok(kind.as_slice().ends_with(b"/json".as_slice()))
}

fn is_caddyfile_type(value: &[u8]) -> bool
    ensures { result ≡ is_caddyfile_type value.now }
{
    trimmed(without_parameters(value)).eq_ignore_ascii_case(b"text/caddyfile".as_slice())
}

/// What comes before the first `;`.
#[tactic(auto, using(crate::proofs::Types::before_cut, crate::proofs::Types::cut_within, crate::proofs::Types::no_cut))]
fn without_parameters(value: &[u8]) -> &[u8]
    ensures { result.now ≡ before_first is_semicolon value.now }
{
    match semicolon(value) {
        Some(end) => &value[..end],
        None => value,
    }
}

fn semicolon(value: &[u8]) -> Option<usize>
    ensures { result ≡ position is_semicolon value.now }
{
    value.iter().position(|byte| *byte == b';')
}

// ---- Cache-Control

/// Whether some field Cache-Control has the member `must-revalidate`, in any case.
pub(crate) fn must_revalidate(fields: &[Field<'_>]) -> bool
    ensures { result ≡ must_revalidate fields.now }
{
    fields.iter().any(|field| is_revalidating(field))
}

fn is_revalidating(field: &Field<'_>) -> bool
    ensures { result ≡ is_revalidating field.now }
{
    field.name.equals(b"cache-control") && has_must_revalidate(field.value.as_slice())
}

fn has_must_revalidate(value: &[u8]) -> bool
    ensures { result ≡ has_must_revalidate value.now }
{
    value
        .split(|byte| *byte == b',')
        .any(|member| is_must_revalidate(member))
}

fn is_must_revalidate(member: &[u8]) -> bool
    ensures { result ≡ is_must_revalidate member.now }
{
    trimmed(member).eq_ignore_ascii_case(b"must-revalidate".as_slice())
}
