use cd_desk::Closing;
use cd_module_set::{Loaded, ModuleSet};
use std::sync::Arc;

/// A configuration that was taken out of the board. To free it takes long where it is large, so it is not dropped: its holder calls
/// `free` once nobody waits for the board.
pub struct Removed<M: ModuleSet> {
    pub(crate) loaded: Arc<Loaded<M>>,
}

/// A draft that was given up: what is left to be ended of it, and its configuration.
pub struct Abandoned<M: ModuleSet> {
    pub closing: Closing,
    pub removed: Removed<M>,
}

impl<M: ModuleSet> Removed<M> {
    /// Frees it, unless others still share it.
    pub fn free(self) {
        let Removed { loaded } = self;
        drop(loaded);
    }
}
