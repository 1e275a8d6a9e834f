//! All lanes are served, side by side.
ghost use Rattle.std.specs.Prelude.{◌≡◌, ◌<◌, ◌≤◌, ℕ, [], false, All, length, slice_index_or, vec_len};
ghost use Rattle.std.specs.Vec.{vec_capacity};
ghost use Rattle.cd_gate.specs.Ends.{IsFree};
ghost use Rattle.cd_gate.specs.Passes.{view};
ghost use Rattle.cd_hall.specs.Calls.{IsPassOf};
ghost use Rattle.cd_host.specs.Seated.{AreServed, IsServedSlot, spans};
ghost use Rattle.cd_host.specs.Seats.{AreBack, AreReady};

use crate::counts::Counts;
use crate::seats::{seat, unseat};
use crate::slot::{Slot, serve_slot};
use cd_admin::Administered;
use cd_gate::Pass;
use cd_hall::Hall;
use cd_life::Board;
use cd_outside::{Fixtures, Lane};
use std::alloc::Global;
use std::sync::Wait;
use std::thread;
use std::thread::Threads;

// Serves the lane of each slot, each in a thread of its own. Where none can be started, the caller serves it.
fn serve_slots<
    R: Threads + Wait + Sync,
    M: Administered + Send + Sync,
    F: Fixtures + Send,
    L: Lane + Send,
>(rt: &R, alloc: Global, hall: &Hall<M, F>, slots: &mut [Slot<M, F, L>])
where
    M::Compiled: Send + Sync,
    requires some { 0 < length slots.old }
    requires is { All (λ slot. IsPassOf hall.now slot.pass) slots.old }
    requires free { All (λ slot. IsFree slot.pass) slots.old }
    requires idle { All (λ slot. L.busy slot.lane ≡ false) slots.old }
    ensures length { length slots.new ≡ length slots.old }
    ensures served { (i : ℕ) (d : _) → i < length slots.old
        → IsServedSlot hall.now (record { acts = M.acts; plan = M.plan }) L.busy L.faults L.past L.since (slice_index_or slots.old i d) (slice_index_or slots.new i d) }
{
    let threads = slots.len();
    thread::for_each_mut(
        rt,
        slots,
        threads,
        &|_, slot: &mut Slot<M, F, L>|
            requires { IsPassOf hall.now slot.now.pass × IsFree slot.now.pass × (L.busy slot.now.lane ≡ false) }
            ensures { IsServedSlot hall.entry.now (record { acts = M.acts; plan = M.plan }) L.busy L.faults L.past L.since slot.entry.now slot.exit.now }
        { serve_slot(rt, alloc, hall, slot) },
    );
}

// The same for a vector of slots.
fn serve_seated<
    R: Threads + Wait + Sync,
    M: Administered + Send + Sync,
    F: Fixtures + Send,
    L: Lane + Send,
>(rt: &R, alloc: Global, hall: &Hall<M, F>, slots: &mut Vec<Slot<M, F, L>>)
where
    M::Compiled: Send + Sync,
    requires some { 0 < length slots.old.items }
    requires is { All (λ slot. IsPassOf hall.now slot.pass) slots.old.items }
    requires free { All (λ slot. IsFree slot.pass) slots.old.items }
    requires idle { All (λ slot. L.busy slot.lane ≡ false) slots.old.items }
    ensures length { length slots.new.items ≡ length slots.old.items }
    ensures capacity { vec_capacity slots.new ≡ vec_capacity slots.old }
    ensures served { (i : ℕ) (d : _) → i < length slots.old.items
        → IsServedSlot hall.now (record { acts = M.acts; plan = M.plan }) L.busy L.faults L.past L.since (slice_index_or slots.old.items i d) (slice_index_or slots.new.items i d) }
{
    serve_slots(rt, alloc, hall, slots.as_mut_slice());
}

/// Serves each lane by a pass of its own, in a thread of its own where one can be started, each to its end. `slots` has room for
/// them.
pub fn serve_all<
    R: Threads + Wait + Sync,
    M: Administered + Send + Sync,
    F: Fixtures + Send,
    L: Lane + Send,
>(
    rt: &R,
    alloc: Global,
    hall: &Hall<M, F>,
    root: &mut Pass<Board<M, F>>,
    passes: &mut Vec<Pass<Board<M, F>>>,
    slots: &mut Vec<Slot<M, F, L>>,
    lanes: &mut Vec<L>,
) -> Counts
where
    M::Compiled: Send + Sync,
    requires ready { AreReady hall.now L.busy root.old passes.old.items lanes.old.items }
    requires some { 1 ≤ length lanes.old.items }
    requires empty { slots.old.items ≡ [] }
    requires room { vec_len lanes.old ≤ vec_capacity slots.old }
    ensures back { AreBack hall.now L.busy root.old root.new passes.old.items passes.new.items lanes.old.items lanes.new.items }
    ensures passes_room { vec_capacity passes.old ≤ vec_capacity passes.new }
    ensures empty { slots.new.items ≡ [] }
    ensures served { AreServed (record { acts = M.acts; plan = M.plan }) (view root.old).seen (view root.new).seen (spans L.faults L.past L.since lanes.old.items lanes.new.items) passes.new.items result.answered result.cut }
{
    seat(hall, root, passes, slots, lanes);
    serve_seated(rt, alloc, hall, slots);
    unseat(hall, root, passes, slots, lanes)
}
