//! The bytes that an upstream is sent for a request.
ghost use Rattle.std.specs.Prelude.{◌≡◌, ◌++◌, not, true, codes, filter, decimal, IfOk, OnOk};
ghost use Rattle.cd_wire.specs.Fields.{values};
ghost use Rattle.cd_wire.specs.Render.{close_line};
ghost use Rattle.cd_proxy.specs.Forward.{is_own, kept, first_of, host_field, proto_field, is_bare, length_fields, sent_fields, request_line, forward};
ghost use Rattle.httparse.specs.Ascii.{crlf_bytes};

use crate::hops::passed_on;
use cd_outside::Address;
use cd_text::{List, NoMemory, Octets, decimal};
use cd_wire::{Field, Lent, Request, put_lines};
use std::alloc::Global;

fn is_own(field: &Field<'_>) -> bool
    ensures { result ≡ is_own field.now }
{
    field.name.equals(b"x-forwarded-host") || field.name.equals(b"x-forwarded-proto")
}

fn without_own<'r>(fields: List<Field<'r>>) -> List<Field<'r>>
    ensures { result ≡ filter (λ field. not (is_own field)) fields.entry }
{
    let mut left = fields.into_vec();
    left.retain(|field| !is_own(field));
    List::from_vec(left)
}

fn kept<'r>(alloc: Global, request: &'r Request) -> Result<List<Field<'r>>, NoMemory>
    ensures { IfOk result (λ left. left ≡ kept request.now.fields) }
{
    let all = request.fields().list(alloc)?;
    let fields = request.fields().list(alloc)?;
    Ok(without_own(passed_on(fields, all.as_slice())))
}

// The value of the first field of that name.
fn first_value<'r>(
    alloc: Global,
    fields: &[Field<'r>],
    name: &[u8],
) -> Result<Option<Lent<'r, u8>>, NoMemory>
    ensures { IfOk result (λ found. found ≡ first_of (values name.now fields.now)) }
{
    for field in fields {
        if field.name.equals(name) {
            return Ok(Some(field.value.copy(alloc)?));
        }
    }
    Ok(None)
}

// What says for which host the request was, by these fields.
fn host_field<'r>(alloc: Global, fields: &[Field<'r>], to: &Address) -> Result<Field<'r>, NoMemory>
    ensures { IfOk result (λ field. field ≡ host_field (first_of (values (codes "host") fields.now)) to.now) }
{
    let host = first_value(alloc, fields, b"host")?;
    match host {
        Some(value) => Ok(Field {
            name: Lent::shared(b"x-forwarded-host"),
            value,
        }),
        None => Ok(Field {
            name: Lent::shared(b"host"),
            value: Lent::text(cd_addr::write(alloc, to)?),
        }),
    }
}

fn proto_field<'r>() -> Field<'r>
    ensures { result ≡ proto_field }
{
    Field {
        name: Lent::shared(b"x-forwarded-proto"),
        value: Lent::shared(b"http"),
    }
}

fn is_bare(request: &Request) -> bool
    ensures { result ≡ is_bare request.now }
{
    request.body().len() == 0 && (request.method() == b"GET".as_slice() || request.is_head())
}

fn length_field<'r>(alloc: Global, length: usize) -> Result<Field<'r>, NoMemory>
    ensures { IfOk result (λ field. field ≡ record { name = codes "content-length"; value = decimal length }) }
{
    let digits = decimal(alloc, length as u64)?;
    Ok(Field {
        name: Lent::shared(b"content-length"),
        value: Lent::text(digits),
    })
}

// Adds the length of the body, unless the request is sent without.
fn add_length(
    alloc: Global,
    fields: &mut List<Field<'_>>,
    request: &Request,
) -> Result<(), NoMemory>
    ensures { OnOk result (fields.new ≡ fields.old ++ length_fields request.now) }
{
    if is_bare(request) {
        return Ok(());
    }
    let length = length_field(alloc, request.body().len())?;
    fields.push(length)
}

fn sent_fields<'r>(
    alloc: Global,
    request: &'r Request,
    to: &Address,
) -> Result<List<Field<'r>>, NoMemory>
    ensures { IfOk result (λ sent. sent ≡ sent_fields request.now to.now) }
{
    let mut fields = kept(alloc, request)?;
    let host = host_field(alloc, fields.as_slice(), to)?;
    fields.push(host)?;
    fields.push(proto_field())?;
    add_length(alloc, &mut fields, request)?;
    Ok(fields)
}

fn put(out: &mut Vec<u8>, bytes: &[u8]) -> Result<(), NoMemory>
    ensures { OnOk result (out.new.items ≡ out.old.items ++ bytes.now) }
{
    out.extend_from_slice(bytes)?;
    Ok(())
}

#[tactic(auto, unfolding(crate::specs::Forward::request_line))]
fn put_request_line(out: &mut Vec<u8>, request: &Request) -> Result<(), NoMemory>
    ensures { OnOk result (out.new.items ≡ out.old.items ++ request_line request.now) }
{
    put(out, request.method())?;
    put(out, b" ")?;
    put(out, request.target())?;
    put(out, b" HTTP/1.1\r\n")
}

#[tactic(auto, unfolding(cd_wire::specs::Render::close_line))]
fn put_end(out: &mut Vec<u8>) -> Result<(), NoMemory>
    ensures { OnOk result (out.new.items ≡ out.old.items ++ (close_line true ++ crlf_bytes)) }
{
    put(out, b"Connection: close\r\n\r\n")
}

/// The bytes that the upstream at this address is sent for the request (RFC 9110, section 7.6).
///
/// The target is sent unchanged. Fields go by rising name, with each word of a name begun by a capital. Those of the client's
/// connection are left out, and `X-Forwarded-Host` and `X-Forwarded-Proto` are the proxy's own. A request without a Host gets the
/// upstream's address as its Host. The upstream is asked to close the connection after its response.
#[tactic(auto, unfolding(crate::specs::Forward::forward))]
pub fn forward(alloc: Global, request: &Request, to: &Address) -> Result<Octets, NoMemory>
    ensures { IfOk result (λ bytes. bytes ≡ forward request.now to.now) }
{
    let fields = sent_fields(alloc, request, to)?;
    let mut out = Vec::with_capacity(alloc, request.body().len().saturating_add(1_024))?;
    put_request_line(&mut out, request)?;
    put_lines(alloc, &mut out, fields.as_slice())?;
    put_end(&mut out)?;
    put(&mut out, request.body())?;
    Ok(Octets::from_vec(out))
}
