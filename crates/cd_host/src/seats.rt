//! Each lane gets a pass of its own while it is served.
ghost use Rattle.std.specs.Prelude.{◌≡◌, ◌<◌, ◌≤◌, ◌++◌, ◌∷◌, [], min, map, length, sum_by, vec_len};
ghost use Rattle.std.specs.Vec.{vec_capacity};
ghost use mathlib.Core.List.{IsPrefix};
ghost use Rattle.cd_outside.specs.Counts.{count_end};
ghost use Rattle.cd_gate.specs.Passes.{view};
ghost use Rattle.cd_hall.specs.Calls.{IsPassOf};
ghost use Rattle.cd_host.specs.Seats.{AllFrom, IsIdleAt, IsUnused, IsReady, IsWithin};

use crate::counts::Counts;
use crate::slot::Slot;
use cd_gate::Pass;
use cd_hall::Hall;
use cd_life::Board;
use cd_module_set::ModuleSet;
use cd_outside::Fixtures;
use cd_serve::{LaneEnd, LaneHow};

// Adds a value for which there is room.
fn place<T>(list: &mut Vec<T>, value: T)
    requires { vec_len list.old < vec_capacity list.old }
    ensures items { list.new.items ≡ list.old.items ++ value ∷ [] }
    ensures capacity { vec_capacity list.old ≤ vec_capacity list.new }
{
    match list.push(value) {
        Ok(()) => {}
        Err(_) => unreachable!(),
    }
}

/// Moves each lane into a slot, for which there is room, with a pass that is told what the program's pass has seen.
pub fn seat<M: ModuleSet, F: Fixtures, L>(
    hall: &Hall<M, F>,
    root: &mut Pass<Board<M, F>>,
    passes: &mut Vec<Pass<Board<M, F>>>,
    slots: &mut Vec<Slot<M, F, L>>,
    lanes: &mut Vec<L>,
)
    requires root { IsPassOf hall.now root.old }
    requires passes { AllFrom (IsUnused hall.now) 1 passes.old.items }
    requires enough { length passes.old.items ≡ length lanes.old.items }
    requires empty { slots.old.items ≡ [] }
    requires room { vec_len lanes.old ≤ vec_capacity slots.old }
    ensures root { root.new ≡ root.old }
    ensures lanes { map (λ slot. slot.lane) slots.new.items ≡ lanes.old.items }
    ensures ready { AllFrom (IsReady hall.now (view root.old).seen) 1 slots.new.items }
    ensures none { (passes.new.items ≡ []) × (lanes.new.items ≡ []) }
    ensures passes_room { vec_capacity passes.new ≡ vec_capacity passes.old }
    ensures lanes_room { vec_capacity lanes.new ≡ vec_capacity lanes.old }
{
    while !lanes.is_empty() {
        let lane = lanes.remove(0);
        let mut pass = passes.remove(0);
        hall.tell(root, &mut pass);
        place(
            slots,
            Slot {
                pass,
                lane,
                end: LaneEnd {
                    how: LaneHow::Ended,
                    answered: 0,
                    cut: 0,
                },
            },
        );
    }
}

/// Moves each pass and each lane back out of its slot, for which there is room, once the program's pass was told what the pass has
/// seen; and gives the sums of what was counted.
pub fn unseat<M: ModuleSet, F: Fixtures, L>(
    hall: &Hall<M, F>,
    root: &mut Pass<Board<M, F>>,
    passes: &mut Vec<Pass<Board<M, F>>>,
    slots: &mut Vec<Slot<M, F, L>>,
    lanes: &mut Vec<L>,
) -> Counts
    requires root { IsPassOf hall.now root.old }
    requires slots { AllFrom (λ k slot. IsIdleAt hall.now k slot.pass) 1 slots.old.items }
    requires none { (passes.old.items ≡ []) × (lanes.old.items ≡ []) }
    requires passes_room { vec_len slots.old ≤ vec_capacity passes.old }
    requires lanes_room { vec_len slots.old ≤ vec_capacity lanes.old }
    ensures root { IsPassOf hall.now root.new }
    ensures seen { IsPrefix (view root.old).seen (view root.new).seen }
    ensures same { view root.new ≡ record (view root.old) { seen = (view root.new).seen } }
    ensures passes { passes.new.items ≡ map (λ slot. slot.pass) slots.old.items }
    ensures within { AllFrom (IsWithin (view root.new).seen) 1 passes.new.items }
    ensures passes_room { vec_capacity passes.old ≤ vec_capacity passes.new }
    ensures lanes { lanes.new.items ≡ map (λ slot. slot.lane) slots.old.items }
    ensures answered { result.answered ≡ min (sum_by (λ slot. slot.end.answered) slots.old.items) count_end }
    ensures cut { result.cut ≡ min (sum_by (λ slot. slot.end.cut) slots.old.items) count_end }
    ensures empty { slots.new.items ≡ [] }
{
    let mut sums = Counts::new();
    while !slots.is_empty() {
        let Slot {
            mut pass,
            lane,
            end,
        } = slots.remove(0);
        hall.tell(&mut pass, root);
        sums.add(end);
        place(passes, pass);
        place(lanes, lane);
    }
    sums
}
