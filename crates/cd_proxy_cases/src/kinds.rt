//! The kinds of rows, each named by a member that no other kind has.
use crate::commands::command_outcome;
use crate::forwards::forward_outcome;
use crate::picks::picks_outcome;
use crate::relays::relay_outcome;
use crate::responses::response_outcome;
use cd_rows::{Handles, Kinds, Outcome, RowFault, has};
use cd_tree::Tree;
use std::alloc::Global;
use std::sync::Wait;
use std::thread::Threads;

/// The kinds of this program, and the handles of the runtime by which its calls wait and start threads.
#[derive(Drop)]
pub struct Cases<R> {
    pub handles: Handles<R>,
}

impl<R: Threads + Wait + Sync> Kinds for Cases<R> {
    fn outcome(&self, alloc: Global, row: &Tree) -> Result<Outcome, RowFault> {
        if has(row, "picks") {
            picks_outcome(alloc, row)
        } else if has(row, "forward") {
            forward_outcome(alloc, row)
        } else if has(row, "response") {
            response_outcome(alloc, row)
        } else if has(row, "relay") {
            relay_outcome(&self.handles, alloc, row)
        } else if has(row, "words") {
            command_outcome(&self.handles, alloc, row)
        } else {
            Err(RowFault::Malformed("a row of no known kind"))
        }
    }
}
