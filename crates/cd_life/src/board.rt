use crate::share::Nothing;
use cd_desk::{Desk, Left};
use cd_module_set::{Loaded, ModuleSet};
use std::sync::Arc;

/// A configuration that was published, and is not retired or was published last.
pub struct Kept<M: ModuleSet> {
    pub(crate) serial: u32,
    pub(crate) loaded: Arc<Loaded<M>>,
}

/// The one place where modules are made, ports opened and configurations published. Each call is one entry of its history.
pub struct Board<M: ModuleSet, F> {
    pub(crate) desk: Desk<F>,
    // the configuration before the first, and after the halt
    pub(crate) opening: Arc<Nothing<M>>,
    pub(crate) kept: Vec<Kept<M>>,
    // how many drafts are live
    pub(crate) live: u64,
}

/// A draft that is neither published nor given up. It is not dropped: `Board::publish` or `Board::abandon` takes it.
pub struct Draft<M: ModuleSet> {
    pub(crate) left: Left,
    pub(crate) loaded: Arc<Loaded<M>>,
}
