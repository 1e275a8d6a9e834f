ghost use Rattle.std.specs.Prelude.{◌≡◌, false, length};
ghost use Rattle.cd_gateway.specs.Stepping.{MayDial};
ghost use Rattle.cd_reverse_proxy.specs.Slots.{IsRelayedSlot};

use cd_gateway::relay_lane;
use cd_outside::{Address, Lane};
use cd_peers::{Balancer, Peers};
use cd_session::LaneEnd;
use std::alloc::Global;
use std::sync::{Mutex, Wait};

/// A lane with the peers by which its requests are relayed, and what came of that.
pub struct Slot<L, P> {
    pub lane: L,
    pub peers: P,
    pub end: LaneEnd,
}

/// Relays the connections of the slot's lane by its peers, to the end. The worker has this place of the balancer.
pub fn relay_slot<R: Wait, L: Lane, P: Peers>(
    rt: &R,
    alloc: Global,
    balancer: &Mutex<Balancer>,
    upstreams: &[Address],
    place: u32,
    slot: &mut Slot<L, P>,
)
    requires may { MayDial place (length upstreams.now) (P.busy slot.old.peers) }
    requires idle { L.busy slot.old.lane ≡ false }
    ensures { IsRelayedSlot upstreams.now L.busy L.faults L.past P.busy P.faults P.past slot.old slot.new }
{
    slot.end = relay_lane(
        rt,
        alloc,
        balancer,
        upstreams,
        place,
        &mut slot.lane,
        &mut slot.peers,
    );
}
