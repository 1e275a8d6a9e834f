use crate::limits::{MAX_PLACES, MAX_UPSTREAMS};
use crate::policy::Policy;
use cd_outside::Address;
use cd_text::List;

/// What a balancer knows of its upstreams: which are down, and which exchanges are live.
#[derive(Debug, Drop)]
pub struct BalancerState {
    /// By which rule the next one is picked.
    pub policy: Policy,
    /// The upstreams. Their numbers are their places in this list.
    pub upstreams: List<Address>,
    /// For each upstream, whether the last exchange that `end` ended there was not good.
    pub down: [bool; MAX_UPSTREAMS],
    /// For each place, the upstream of the exchange that it holds.
    pub places: [Option<u32>; MAX_PLACES],
    /// The upstream that was picked last.
    pub last: Option<u32>,
}
