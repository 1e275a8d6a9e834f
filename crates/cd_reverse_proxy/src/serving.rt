//! All lanes are served, side by side.
ghost use Rattle.std.specs.Prelude.{◌≡◌, ◌<◌, ◌≤◌, ℕ, [], false, All, length, slice_index_or, vec_len};
ghost use Rattle.std.specs.Vec.{vec_capacity};
ghost use Rattle.cd_peers.specs.declared.limits.TheConstants.{MAX_PLACES};
ghost use Rattle.cd_gateway.specs.Stepping.{MayDial};
ghost use Rattle.cd_reverse_proxy.specs.Slots.{AreBack, AreReady, HasRoom, IsRelayedSlot};
ghost use Rattle.cd_reverse_proxy.specs.Workers.{AreRelayed, workers};

use crate::seats::{seat, unseat};
use crate::slot::{Slot, relay_slot};
use cd_outside::{Address, Lane};
use cd_peers::{Balancer, Peers};
use cd_session::Counts;
use std::alloc::Global;
use std::sync::{Mutex, Wait};
use std::thread;
use std::thread::Threads;

// Serves the lane of each slot, each in a thread of its own. Where none can be started, the caller serves it.
fn serve_slots<R: Threads + Wait + Sync, L: Lane + Send, P: Peers + Send>(
    rt: &R,
    alloc: Global,
    balancer: &Mutex<Balancer>,
    upstreams: &[Address],
    slots: &mut [Slot<L, P>],
)
    requires upstreams { 0 < length upstreams.now }
    requires some { 0 < length slots.old }
    requires few { length slots.old ≤ MAX_PLACES }
    requires lanes { All (λ slot. L.busy slot.lane ≡ false) slots.old }
    requires peers { All (λ slot. P.busy slot.peers ≡ false) slots.old }
    ensures length { length slots.new ≡ length slots.old }
    ensures served { (i : ℕ) (d : _) → i < length slots.old
        → IsRelayedSlot upstreams.now L.busy L.faults L.past P.busy P.faults P.past (slice_index_or slots.old i d) (slice_index_or slots.new i d) }
{
    let threads = slots.len();
    thread::for_each_mut(
        rt,
        slots,
        threads,
        &|place, slot: &mut Slot<L, P>|
            requires { (place < MAX_PLACES) × (0 < length upstreams.now) × (P.busy slot.now.peers ≡ false) × (L.busy slot.now.lane ≡ false) }
            ensures { IsRelayedSlot upstreams.entry.now L.busy L.faults L.past P.busy P.faults P.past slot.entry.now slot.exit.now }
        { relay_slot(rt, alloc, balancer, upstreams, place as u32, slot) },
    );
}

// The same for a vector of slots.
fn serve_seated<R: Threads + Wait + Sync, L: Lane + Send, P: Peers + Send>(
    rt: &R,
    alloc: Global,
    balancer: &Mutex<Balancer>,
    upstreams: &[Address],
    slots: &mut Vec<Slot<L, P>>,
)
    requires upstreams { 0 < length upstreams.now }
    requires some { 0 < length slots.old.items }
    requires few { length slots.old.items ≤ MAX_PLACES }
    requires lanes { All (λ slot. L.busy slot.lane ≡ false) slots.old.items }
    requires peers { All (λ slot. P.busy slot.peers ≡ false) slots.old.items }
    ensures length { length slots.new.items ≡ length slots.old.items }
    ensures capacity { vec_capacity slots.new ≡ vec_capacity slots.old }
    ensures served { (i : ℕ) (d : _) → i < length slots.old.items
        → IsRelayedSlot upstreams.now L.busy L.faults L.past P.busy P.faults P.past (slice_index_or slots.old.items i d) (slice_index_or slots.new.items i d) }
{
    serve_slots(rt, alloc, balancer, upstreams, slots.as_mut_slice());
}

/// Serves each lane by its peers, in a thread of its own where one can be started, each to its end. `slots` has room for them.
pub fn serve_all<R: Threads + Wait + Sync, L: Lane + Send, P: Peers + Send>(
    rt: &R,
    alloc: Global,
    balancer: &Mutex<Balancer>,
    upstreams: &[Address],
    slots: &mut Vec<Slot<L, P>>,
    lanes: &mut Vec<L>,
    peers: &mut Vec<P>,
) -> Counts
    requires ready { AreReady L.busy P.busy lanes.old.items peers.old.items }
    requires upstreams { 0 < length upstreams.now }
    requires room { HasRoom slots.old.items (vec_capacity slots.old) (vec_len lanes.old) }
    ensures back { AreBack L.busy P.busy lanes.old.items lanes.new.items peers.old.items peers.new.items }
    ensures empty { slots.new.items ≡ [] }
    ensures served { AreRelayed upstreams.now (workers L.past L.faults P.past P.faults lanes.old.items lanes.new.items peers.old.items peers.new.items) result.answered result.cut }
{
    seat(slots, lanes, peers);
    serve_seated(rt, alloc, balancer, upstreams, slots);
    unseat(slots, lanes, peers)
}
