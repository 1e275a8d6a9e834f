//! Each lane comes together with its peers while it is served.
ghost use Rattle.std.specs.Prelude.{◌≡◌, ◌<◌, ◌≤◌, ◌++◌, ◌∷◌, [], min, map, length, sum_by, vec_len};
ghost use Rattle.std.specs.Vec.{vec_capacity};
ghost use Rattle.cd_outside.specs.Counts.{count_end};
ghost use Rattle.cd_reverse_proxy.specs.Slots.{HasRoom};

use crate::counts::add_lane;
use crate::slot::Slot;
use cd_session::{Counts, LaneEnd, LaneHow};

// Adds a value for which there is room.
fn place<T>(list: &mut Vec<T>, value: T)
    requires { vec_len list.old < vec_capacity list.old }
    ensures items { list.new.items ≡ list.old.items ++ value ∷ [] }
    ensures capacity { vec_capacity list.old ≤ vec_capacity list.new }
{
    match list.push(value) {
        Ok(()) => {}
        Err(_) => unreachable!(),
    }
}

/// Moves each lane with its peers into a slot, for which there is room.
pub fn seat<L, P>(slots: &mut Vec<Slot<L, P>>, lanes: &mut Vec<L>, peers: &mut Vec<P>)
    requires enough { length peers.old.items ≡ length lanes.old.items }
    requires room { HasRoom slots.old.items (vec_capacity slots.old) (vec_len lanes.old) }
    ensures lanes { map (λ slot. slot.lane) slots.new.items ≡ lanes.old.items }
    ensures peers { map (λ slot. slot.peers) slots.new.items ≡ peers.old.items }
    ensures none { (lanes.new.items ≡ []) × (peers.new.items ≡ []) }
    ensures lanes_room { vec_capacity lanes.new ≡ vec_capacity lanes.old }
    ensures peers_room { vec_capacity peers.new ≡ vec_capacity peers.old }
{
    while !lanes.is_empty() {
        let lane = lanes.remove(0);
        let of_lane = peers.remove(0);
        place(
            slots,
            Slot {
                lane,
                peers: of_lane,
                end: LaneEnd {
                    how: LaneHow::Ended,
                    answered: 0,
                    cut: 0,
                },
            },
        );
    }
}

/// Moves each lane and its peers back out of their slot, for which there is room, and gives the sums of what was counted.
pub fn unseat<L, P>(slots: &mut Vec<Slot<L, P>>, lanes: &mut Vec<L>, peers: &mut Vec<P>) -> Counts
    requires none { (lanes.old.items ≡ []) × (peers.old.items ≡ []) }
    requires lanes_room { vec_len slots.old ≤ vec_capacity lanes.old }
    requires peers_room { vec_len slots.old ≤ vec_capacity peers.old }
    ensures lanes { lanes.new.items ≡ map (λ slot. slot.lane) slots.old.items }
    ensures peers { peers.new.items ≡ map (λ slot. slot.peers) slots.old.items }
    ensures answered { result.answered ≡ min (sum_by (λ slot. slot.end.answered) slots.old.items) count_end }
    ensures cut { result.cut ≡ min (sum_by (λ slot. slot.end.cut) slots.old.items) count_end }
    ensures empty { slots.new.items ≡ [] }
{
    let mut sums = Counts::new();
    while !slots.is_empty() {
        let Slot {
            lane,
            peers: of_lane,
            end,
        } = slots.remove(0);
        add_lane(&mut sums, end);
        place(lanes, lane);
        place(peers, of_lane);
    }
    sums
}
