//! The request of a row.
ghost use Rattle.cd_tree.specs.Tree.{IsSound};

use crate::deciding::text_at;
use cd_rows::{RowFault, bytes_at, bytes_of, find, has};
use cd_text::{NoMemory, Octets, decimal};
use cd_tree::Tree;
use cd_wire::{Intake, Next, Request};
use std::alloc::Global;

/// The request that the row asks: its method and target, its host, its fields, each as a line, and its body, whose length is added.
pub fn request_of(alloc: Global, row: &Tree) -> Result<Request, RowFault>
    requires { IsSound row.now }
{
    let mut head = bytes_at(alloc, row, "asked")?;
    head.append(b" HTTP/1.1\r\nHost: ")?;
    put_host(alloc, row, &mut head)?;
    put_fields(alloc, row, &mut head)?;
    let body = body_of(alloc, row)?;
    put_body(alloc, body.as_slice(), &mut head)?;
    match only_request(alloc, head.as_slice())? {
        Some(request) => Ok(request),
        None => Err(RowFault::Malformed("no request")),
    }
}

fn put_host(alloc: Global, row: &Tree, head: &mut Octets) -> Result<(), RowFault> {
    if has(row, "host") {
        let host = bytes_at(alloc, row, "host")?;
        head.append(host.as_slice())?;
    } else {
        head.append(b"localhost:2019")?;
    }
    head.append(b"\r\n")?;
    Ok(())
}

fn put_fields(alloc: Global, row: &Tree, head: &mut Octets) -> Result<(), RowFault> {
    match find(row, "fields") {
        None => Ok(()),
        Some(Tree::Items(lines)) => put_lines(alloc, lines.as_slice(), head),
        Some(_) => Err(RowFault::Malformed("fields that are no list")),
    }
}

fn put_lines(alloc: Global, lines: &[Tree], head: &mut Octets) -> Result<(), RowFault> {
    for line in lines {
        let line = bytes_of(alloc, line)?;
        head.append(line.as_slice())?;
        head.append(b"\r\n")?;
    }
    Ok(())
}

// The body: the compact text of a tree, BYTES, or nothing.
fn body_of(alloc: Global, row: &Tree) -> Result<Octets, RowFault>
    requires { IsSound row.now }
{
    if has(row, "body") {
        text_at(alloc, row, "body")
    } else if has(row, "body_bytes") {
        bytes_at(alloc, row, "body_bytes")
    } else {
        Ok(Octets::new(alloc))
    }
}

fn put_body(alloc: Global, body: &[u8], head: &mut Octets) -> Result<(), NoMemory> {
    let length = decimal(alloc, body.len() as u64)?;
    head.append(b"Content-Length: ")?;
    head.append(length.as_str().as_bytes())?;
    head.append(b"\r\n\r\n")?;
    head.append(body)
}

fn only_request(alloc: Global, bytes: &[u8]) -> Result<Option<Request>, NoMemory> {
    let mut intake = Intake::new(alloc);
    intake.push(bytes)?;
    match intake.next(true)? {
        Next::Request(request) => Ok(Some(request)),
        _ => Ok(None),
    }
}
