//! The kind of rows.
use crate::running::network_outcome;
use cd_rows::{Handles, Kinds, Outcome, RowFault};
use cd_tree::Tree;
use std::alloc::Global;
use std::sync::Wait;
use std::thread::Threads;

/// The one kind of rows: networks. It has these handles of the runtime.
#[derive(Drop)]
pub struct NetworkKinds<R> {
    pub handles: Handles<R>,
}

impl<R: Threads + Wait + Sync> Kinds for NetworkKinds<R> {
    fn outcome(&self, alloc: Global, row: &Tree) -> Result<Outcome, RowFault> {
        network_outcome(&self.handles, alloc, row)
    }
}
