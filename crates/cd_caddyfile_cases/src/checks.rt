//! Whether a file is a Caddyfile.
//!
//!     {"caddyfile": BYTES, "found": "fine"}
//!     {"caddyfile": BYTES, "refused": TEXT}
//!
//! The text is the words of the file's first fault.
use cd_caddyfile::{CaddyfileKind, check, fault_words};
use cd_rows::{Outcome, RowFault, bytes_at, only, refuses, says};
use cd_tree::Tree;
use std::alloc::Global;

/// What the file of the row is found to be.
pub fn check_outcome(alloc: Global, row: &Tree) -> Result<Outcome, RowFault> {
    only(alloc, row, "caddyfile found refused")?;
    let bytes = bytes_at(alloc, row, "caddyfile")?;
    match check(alloc, bytes.as_slice()) {
        Ok(()) => says(alloc, "found", "fine"),
        Err(fault) => {
            if fault.kind == CaddyfileKind::NoMemory {
                return Err(RowFault::NoMemory);
            }
            let words = fault_words(alloc, &fault)?;
            refuses(alloc, words.as_str())
        }
    }
}
