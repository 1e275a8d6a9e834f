//! The connections of a lane are relayed, one after another.
ghost use Rattle.std.specs.Prelude.{◌≡◌, ◌≤◌, ℕ, List, Option, true, false, length, option_map};
ghost use Rattle.cd_outside.specs.declared.accepted.Accepted.TheVariants as accepted;
ghost use Rattle.cd_outside.specs.declared.past.Past.{Past};
ghost use Rattle.cd_outside.specs.Counts.{Rose};
ghost use Rattle.cd_outside.specs.Past.{after_accept};
ghost use Rattle.cd_outside.specs.Telling.{TellsOn};
ghost use Rattle.cd_peers.specs.declared.dialled.Dialled.{Dialled as Exchange};
ghost use Rattle.cd_session.specs.declared.lane_end.LaneHow.TheVariants as how;
ghost use Rattle.cd_gateway.specs.Lanes.{IsRelayed, counted};
ghost use Rattle.cd_gateway.specs.Stepping.{LaneGoesOn, MayDial};

use crate::worker::Worker;
use cd_outside::{Accepted, Address, Lane};
use cd_peers::{Balancer, Peers};
use cd_session::{Counts, LaneEnd, LaneHow, READ_BYTES};
use std::alloc::Global;
use std::sync::{Mutex, Wait};

/// Relays the connections of the lane to upstreams until no more comes or until it fails to accept. The worker has this place of the
/// balancer. No connection and no exchange is there, before and after.
///
/// The upstreams are those of the balancer, in their order. The lock is held only while an upstream is picked, and while an exchange
/// is said to be over.
pub fn relay_lane<R: Wait, L: Lane, P: Peers>(
    rt: &R,
    alloc: Global,
    balancer: &Mutex<Balancer>,
    upstreams: &[Address],
    place: u32,
    lane: &mut L,
    peers: &mut P,
) -> LaneEnd
    requires may { MayDial place (length upstreams.now) (P.busy peers.old) }
    requires busy { L.busy lane.old ≡ false }
    ensures busy { L.busy lane.new ≡ false }
    ensures idle { P.busy peers.new ≡ false }
    ensures relayed { TellsOn (IsRelayed upstreams.now (counted (L.faults lane.old) (P.faults peers.old)) (counted (L.faults lane.new) (P.faults peers.new)) result (P.past peers.old) (P.past peers.new)) (L.past lane.old) (L.past lane.new) }
    ensures later { L.faults lane.old ≤ L.faults lane.new }
    ensures failed { result.how ≡ how.AcceptFault → Rose (L.faults lane.old) (L.faults lane.new) }
    ensures running { ¬ (result.how ≡ how.Halted) }
{
    let worker = Worker {
        rt,
        alloc,
        balancer,
        upstreams,
        place,
    };
    let mut counts = Counts::new();
    let mut room = [0; READ_BYTES];
    for _ in rt.forever() {
        match lane.accept() {
            Accepted::Connection(at) => {
                worker.relay_accepted(lane, peers, &at, &mut counts, &mut room);
            }
            Accepted::Ended => return counts.end(LaneHow::Ended),
            Accepted::Failed => return counts.end(LaneHow::AcceptFault),
        }
    }
    unreachable!()
}

impl<R: Wait> Worker<'_, R> {
    // Relays the connection that has just come, to this address, and counts what came of it.
    fn relay_accepted<L: Lane, P: Peers>(
        &self,
        lane: &mut L,
        peers: &mut P,
        at: &Address,
        counts: &mut Counts,
        room: &mut [u8; READ_BYTES],
    )
        requires may { MayDial self.now.place (length self.now.upstreams.now) (P.busy peers.old) }
        requires busy { L.busy lane.old ≡ true }
        ensures busy { L.busy lane.new ≡ false }
        ensures idle { P.busy peers.new ≡ false }
        ensures goes { (before : Option (List Exchange)) (old then : Option Past) (lane_first peers_first faults : ℕ)
            → LaneGoesOn self.now.upstreams.now (counted lane_first peers_first) (counted faults (P.faults peers.old)) counts.old.answered counts.old.cut before (P.past peers.old) old then
            → faults ≤ L.faults lane.old → L.past lane.old ≡ option_map (after_accept (accepted.Connection at.now)) then
            → LaneGoesOn self.now.upstreams.now (counted lane_first peers_first) (counted (L.faults lane.new) (P.faults peers.new)) counts.new.answered counts.new.cut before (P.past peers.new) old (L.past lane.new) }
        ensures later { L.faults lane.old ≤ L.faults lane.new }
    {
        let _ = at;
        let end = self.relay_connection(lane, peers, room);
        counts.add(&end);
    }
}
