use cd_hall::Hall;
use cd_module_set::ModuleSet;
use cd_outside::{Address, Fixtures};
use std::alloc::Global;

/// What a connection is served with, beside its lane, its pass and its cache: it stays the same to its end.
pub(crate) struct Means<'m, R, M: ModuleSet, F: Fixtures> {
    pub rt: &'m R,
    pub alloc: Global,
    pub hall: &'m Hall<M, F>,
    /// The address that the connection came to.
    pub at: &'m Address,
}

impl<'m, R, M: ModuleSet, F: Fixtures> Drop for Means<'m, R, M, F> {
    fn drop(self) {
        let Self {
            rt: _,
            alloc: _,
            hall: _,
            at: _,
        } = self;
    }
}
