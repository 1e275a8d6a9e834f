//! The head of a response.
ghost use Rattle.std.specs.Prelude.{◌≡◌, ◌≤◌, length, map, IfOk};
ghost use Rattle.httparse.specs.Borrowed.{header_parts};
ghost use Rattle.cd_wire.specs.Heads.{field_of};
ghost use Rattle.cd_wire.specs.declared.limits.TheConstants.{MAX_HEAD_BYTES};
ghost use Rattle.cd_proxy.specs.Reading.{IsHeadRead};

use crate::own_field::OwnField;
use cd_text::{List, NoMemory, Octets};
use cd_wire::{MAX_HEAD_BYTES, MAX_HEAD_FIELDS, front_of};
use httparse::{EMPTY_HEADER, Header, Status};
use std::alloc::Global;

/// What is kept of the head of a response.
#[derive(Debug, Drop)]
pub(crate) struct Head {
    /// The status, of three digits.
    pub status: u16,
    /// The minor version: 1 for HTTP/1.1, 0 for HTTP/1.0.
    pub minor: u8,
    /// The fields, in their order, with names in lower case.
    pub fields: List<OwnField>,
}

/// What an input begins with: a head and its length, none yet, or none whatever follows.
#[derive(Drop)]
pub(crate) enum HeadRead {
    Whole(Head, usize),
    Partial,
    Hopeless,
}

// A field of its own, with its name in lower case.
fn kept_field(alloc: Global, header: &Header) -> Result<OwnField, NoMemory>
    ensures { IfOk result (λ field. field ≡ field_of (header_parts header.now)) }
{
    let name = header.name.to_ascii_lowercase(alloc)?;
    let value = Octets::from_slice(alloc, header.value)?;
    Ok(OwnField::new(Octets::from_vec(name.into_bytes()), value))
}

fn kept_fields(alloc: Global, headers: &[Header]) -> Result<List<OwnField>, NoMemory>
    ensures { IfOk result (λ fields. fields ≡ map field_of (map header_parts headers.now)) }
{
    let mut fields = Vec::with_capacity(alloc, headers.len())?;
    for header in headers {
        fields.push(kept_field(alloc, header)?)?;
    }
    Ok(List::from_vec(fields))
}

// The head at the front of bytes that are no more than a head may have.
fn parse_head(alloc: Global, bytes: &[u8]) -> Result<HeadRead, NoMemory>
    requires { length bytes.now ≤ MAX_HEAD_BYTES }
    ensures { IfOk result (IsHeadRead bytes.now) }
{
    let mut headers = [EMPTY_HEADER; MAX_HEAD_FIELDS];
    let mut response = httparse::Response::new(&mut headers);
    match response.parse(bytes) {
        Ok(Status::Complete(len)) => {
            // The array holds no more, but no clause of the parser says so.
            if response.headers.len() > MAX_HEAD_FIELDS {
                return Ok(HeadRead::Hopeless);
            }
            let (Some(status), Some(minor)) = (response.code, response.version) else {
                unreachable!()
            };
            let head = Head {
                status,
                minor,
                fields: kept_fields(alloc, response.headers)?,
            };
            Ok(HeadRead::Whole(head, len))
        }
        Ok(Status::Partial) => Ok(HeadRead::Partial),
        Err(_) => Ok(HeadRead::Hopeless),
    }
}

/// The head at the front of an input.
pub(crate) fn read_head(alloc: Global, bytes: &[u8]) -> Result<HeadRead, NoMemory>
    ensures { IfOk result (IsHeadRead bytes.now) }
{
    let front = front_of(bytes, MAX_HEAD_BYTES);
    let read = parse_head(alloc, front)?;
    match read {
        HeadRead::Partial if bytes.len() >= MAX_HEAD_BYTES => Ok(HeadRead::Hopeless),
        read => Ok(read),
    }
}
