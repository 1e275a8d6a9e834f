//! The request of a row.
use cd_rows::{RowFault, bytes_of};
use cd_text::{NoMemory, Octets};
use cd_tree::Tree;
use cd_wire::{Intake, Next, Request};
use std::alloc::Global;

/// The request of these bytes. Where they have no end of a line, they are the first words of a head alone, as `GET /a`.
pub fn request_of(alloc: Global, asked: &Tree) -> Result<Request, RowFault> {
    let bytes = completed(bytes_of(alloc, asked)?)?;
    match only_request(alloc, bytes.as_slice())? {
        Some(request) => Ok(request),
        None => Err(RowFault::Malformed("no request")),
    }
}

fn completed(bytes: Octets) -> Result<Octets, NoMemory> {
    let mut bytes = bytes;
    if !bytes.as_slice().iter().any(|byte| *byte == b'\n') {
        bytes.append(b" HTTP/1.1\r\nHost: a\r\n\r\n")?;
    }
    Ok(bytes)
}

fn only_request(alloc: Global, bytes: &[u8]) -> Result<Option<Request>, NoMemory> {
    let mut intake = Intake::new(alloc);
    intake.push(bytes)?;
    match intake.next(true)? {
        Next::Request(request) => Ok(Some(request)),
        _ => Ok(None),
    }
}
