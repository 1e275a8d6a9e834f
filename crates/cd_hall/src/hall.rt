use cd_gate::Gate;
use cd_life::{Board, Share};
use cd_module_set::ModuleSet;
use cd_outside::Fixtures;

/// A board that passes share, one at a time.
pub struct Hall<M: ModuleSet, F: Fixtures> {
    pub(crate) gate: Gate<Board<M, F>>,
}

/// A request that runs, with the configuration under which it began. It is not dropped: `Hall::finish` or
/// `Hall::finish_now` takes it.
pub struct Ticket<M: ModuleSet> {
    pub(crate) serial: u32,
    pub(crate) share: Share<M>,
}
