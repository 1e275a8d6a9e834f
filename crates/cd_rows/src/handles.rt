//! The handles of a runtime.
use std::marker::PhantomData;
use std::sync::Wait;
use std::thread::Threads;

/// The handles of a runtime by which the program may wait and start threads. Nothing of the runtime is held, so that they can be
/// shared whatever it is.
#[derive(Drop)]
pub struct Handles<R> {
    runtime: PhantomData<R>,
}

impl<R> Handles<R> {
    /// Those of this runtime.
    pub fn of(_rt: &R) -> Handles<R> {
        Handles {
            runtime: PhantomData,
        }
    }
}

impl<R: Wait> Wait for Handles<R> {}

impl<R: Threads> Threads for Handles<R> {}
