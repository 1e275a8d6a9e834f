ghost use Rattle.std.specs.Prelude.{◌≡◌, false};
ghost use Rattle.cd_gate.specs.Ends.{IsFree};
ghost use Rattle.cd_hall.specs.Calls.{IsPassOf};
ghost use Rattle.cd_host.specs.Seated.{IsServedSlot};

use cd_admin::Administered;
use cd_gate::Pass;
use cd_hall::Hall;
use cd_life::Board;
use cd_module_set::ModuleSet;
use cd_outside::{Fixtures, Lane};
use cd_serve::{LaneEnd, serve_lane};
use std::alloc::Global;
use std::sync::Wait;

/// A lane with the pass that serves it, and what came of that.
pub struct Slot<M: ModuleSet, F: Fixtures, L> {
    pub pass: Pass<Board<M, F>>,
    pub lane: L,
    pub end: LaneEnd,
}

/// Serves the lane of the slot to its end, by the pass of the slot, which owes nothing.
pub fn serve_slot<R: Wait, M: Administered, F: Fixtures, L: Lane>(
    rt: &R,
    alloc: Global,
    hall: &Hall<M, F>,
    slot: &mut Slot<M, F, L>,
)
    requires pass { IsPassOf hall.now slot.old.pass }
    requires free { IsFree slot.old.pass }
    requires idle { L.busy slot.old.lane ≡ false }
    ensures { IsServedSlot hall.now (record { acts = M.acts; plan = M.plan }) L.busy L.faults L.past L.since slot.old slot.new }
{
    slot.end = serve_lane(rt, alloc, hall, &mut slot.pass, &mut slot.lane);
}
