//! The kinds of rows: each is named by a member.
use crate::conversation::conversation_outcome;
use crate::lives::life_outcome;
use crate::tearing::images_found;
use cd_rows::{Handles, Kinds, Outcome, RowFault, has, only};
use cd_tree::Tree;
use std::alloc::Global;
use std::sync::Wait;
use std::thread::Threads;

/// The kinds of rows: conversations with the program, steps with a file, and the crashes of some saves. They have these handles of
/// the runtime.
#[derive(Drop)]
pub struct RunKinds<R> {
    pub handles: Handles<R>,
}

impl<R: Threads + Wait + Sync> Kinds for RunKinds<R> {
    fn outcome(&self, alloc: Global, row: &Tree) -> Result<Outcome, RowFault> {
        if has(row, "crashes") {
            only(alloc, row, "crashes found")?;
            images_found(alloc, row)
        } else if has(row, "steps") {
            life_outcome(&self.handles, alloc, row)
        } else {
            conversation_outcome(&self.handles, alloc, row)
        }
    }
}
