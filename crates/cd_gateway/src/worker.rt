use cd_outside::Address;
use cd_peers::Balancer;
use std::alloc::Global;
use std::sync::Mutex;

/// What a worker relays with, beside its lane and its peers.
pub(crate) struct Worker<'w, R> {
    pub rt: &'w R,
    pub alloc: Global,
    /// It is shared with other workers.
    pub balancer: &'w Mutex<Balancer>,
    /// Those of the balancer, in their order.
    pub upstreams: &'w [Address],
    /// The worker's place of the balancer.
    pub place: u32,
}

impl<R> Drop for Worker<'_, R> {
    fn drop(self) {
        let Self {
            rt: _,
            alloc: _,
            balancer: _,
            upstreams: _,
            place: _,
        } = self;
    }
}
