//! The kinds of rows, each named by a member that no other kind has.
use crate::adapts::adapt_outcome;
use crate::checks::check_outcome;
use cd_rows::{Kinds, Outcome, RowFault, has};
use cd_tree::Tree;
use std::alloc::Global;

/// The kinds of this program.
#[derive(Drop)]
pub struct Cases;

impl Kinds for Cases {
    fn outcome(&self, alloc: Global, row: &Tree) -> Result<Outcome, RowFault> {
        if has(row, "caddyfile") {
            check_outcome(alloc, row)
        } else if has(row, "adapt") {
            adapt_outcome(alloc, row)
        } else {
            Err(RowFault::Malformed("a row of no known kind"))
        }
    }
}
