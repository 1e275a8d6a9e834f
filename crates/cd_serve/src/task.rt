use crate::means::Means;
use cd_module_set::ModuleSet;
use cd_outside::Fixtures;
use cd_wire::Request;

/// A request, and what it is served with.
pub(crate) struct Task<'t, 'm, R, M: ModuleSet, F: Fixtures> {
    pub means: &'t Means<'m, R, M, F>,
    pub request: &'t Request,
}

impl<'t, 'm, R, M: ModuleSet, F: Fixtures> Drop for Task<'t, 'm, R, M, F> {
    fn drop(self) {
        let Self {
            means: _,
            request: _,
        } = self;
    }
}
