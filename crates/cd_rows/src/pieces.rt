//! Inputs that come in pieces.
use crate::{Outcome, RowFault, find};
use cd_text::{NoMemory, Octets};
use cd_tree::Tree;
use std::alloc::Global;

/// An input in which something is to be found.
pub trait InPieces {
    /// What is found where the input comes in pieces of this size.
    fn found(&self, alloc: Global, size: usize) -> Result<Octets, NoMemory>;
}

/// What is found in the whole input, unless something else is found where it comes in pieces: of one of the sizes that the row lists
/// by the member `pieces`, or byte by byte where it lists none.
pub fn found_in_pieces<I: InPieces>(
    alloc: Global,
    row: &Tree,
    input: &I,
    whole: Octets,
) -> Result<Outcome, RowFault> {
    let Some(sizes) = find(row, "pieces") else {
        return Ok(found(input.found(alloc, 1)?));
    };
    let Tree::Items(sizes) = sizes else {
        return Err(RowFault::Malformed("sizes that are no list"));
    };
    for size in sizes.as_slice() {
        let other = input.found(alloc, size_of(size)?)?;
        if !other.equals(whole.as_slice()) {
            return Ok(found(other));
        }
    }
    Ok(found(whole))
}

fn size_of(size: &Tree) -> Result<usize, RowFault> {
    match size {
        Tree::Num(number) => Ok(number.size as usize),
        _ => Err(RowFault::Malformed("a size that is no number")),
    }
}

/// These bytes were found.
pub fn found(bytes: Octets) -> Outcome {
    Outcome {
        member: "found",
        bytes,
    }
}
