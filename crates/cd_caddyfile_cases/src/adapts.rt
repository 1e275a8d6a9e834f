//! Which configuration a Caddyfile is.
//!
//!     {"adapt": BYTES, "tree": TREE, "found": "the tree"}
//!     {"adapt": BYTES, "length": NUMBER}
//!     {"adapt": BYTES, "refused": TEXT}
//!
//! The tree is that of the file. The length is that of its compact text, where it is large. The text of a refusal is the words of
//! the fault.
use cd_adapt::adapt;
use cd_caddyfile::{CaddyfileKind, fault_words};
use cd_rows::{Outcome, RowFault, bytes_at, find, only, refuses, says};
use cd_text::decimal;
use cd_tree::{Tree, equal, text_length};
use std::alloc::Global;

/// What the file of the row comes to.
pub fn adapt_outcome(alloc: Global, row: &Tree) -> Result<Outcome, RowFault> {
    only(alloc, row, "adapt tree found length refused")?;
    let bytes = bytes_at(alloc, row, "adapt")?;
    match adapt(alloc, bytes.as_slice()) {
        Ok(tree) => made(alloc, row, &tree),
        Err(fault) => {
            if fault.kind == CaddyfileKind::NoMemory {
                return Err(RowFault::NoMemory);
            }
            let words = fault_words(alloc, &fault)?;
            refuses(alloc, words.as_str())
        }
    }
}

fn made(alloc: Global, row: &Tree, tree: &Tree) -> Result<Outcome, RowFault> {
    match find(row, "tree") {
        Some(wanted) => {
            if equal(tree, wanted) {
                says(alloc, "found", "the tree")
            } else {
                says(alloc, "found", "another tree")
            }
        }
        None => {
            let length = decimal(alloc, text_length(tree) as u64)?;
            says(alloc, "length", length.as_str())
        }
    }
}
