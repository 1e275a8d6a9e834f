//! What an upstream is sent for a request.
//!
//!     {"forward": BYTES, "answered": BYTES}
//!
//! The bytes are a request of a client. The upstream is at `up.test:9000`.
use cd_outside::Address;
use cd_proxy::forward;
use cd_rows::{Outcome, RowFault, bytes_at, only};
use cd_text::{NoMemory, Octets, Text};
use cd_tree::Tree;
use cd_wire::{Intake, Next};
use std::alloc::Global;

/// What is sent for the request of the row.
pub fn forward_outcome(alloc: Global, row: &Tree) -> Result<Outcome, RowFault> {
    only(alloc, row, "forward answered")?;
    let bytes = bytes_at(alloc, row, "forward")?;
    match sent(alloc, bytes.as_slice())? {
        Some(bytes) => Ok(Outcome {
            member: "answered",
            bytes,
        }),
        None => Err(RowFault::Malformed("no request")),
    }
}

fn sent(alloc: Global, bytes: &[u8]) -> Result<Option<Octets>, NoMemory> {
    let to = Address {
        host: Text::from_str(alloc, "up.test")?,
        port: 9_000,
    };
    let mut intake = Intake::new(alloc);
    intake.push(bytes)?;
    match intake.next(true)? {
        Next::Request(request) => Ok(Some(forward(alloc, &request, &to)?)),
        _ => Ok(None),
    }
}
