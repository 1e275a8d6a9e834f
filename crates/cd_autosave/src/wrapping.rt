//! Lanes are wrapped before a run, and unwrapped after it.
ghost use Rattle.std.specs.Prelude.{◌≡◌, ◌<◌, ◌≤◌, ◌+◌, ◌++◌, ◌∷◌, [], ℕ, All, length, map, sum_by, vec_len};
ghost use Rattle.std.specs.Vec.{vec_capacity};

use crate::{Disk, SavingLane, SavingRun, SharedSaver};
use cd_outside::Lane;
use std::sync::Mutex;
use std::sync::ledger::Share;

// Adds a value for which there is room.
fn place<T>(list: &mut Vec<T>, value: T)
    requires { vec_len list.old < vec_capacity list.old }
    ensures items { list.new.items ≡ list.old.items ++ value ∷ [] }
    ensures capacity { vec_capacity list.old ≤ vec_capacity list.new }
{
    match list.push(value) {
        Ok(()) => {}
        Err(_) => unreachable!(),
    }
}

/// Moves each lane, with a part of the shares, into one that saves, for which there is room.
pub fn wrap_lanes<'a, L: Lane, D: Disk, K: SavingRun>(
    saver: &'a Mutex<SharedSaver<D, K>>,
    all: &mut Share<K>,
    lanes: &mut Vec<L>,
    wrapped: &mut Vec<SavingLane<'a, L, D, K>>,
)
    requires parts { all.old.parts ≡ length lanes.old.items }
    requires amount { all.old.amount ≡ 0 }
    requires empty { wrapped.old.items ≡ [] }
    requires room { vec_len lanes.old ≤ vec_capacity wrapped.old }
    ensures parts { (all.new.parts ≡ 0) × (all.new.amount ≡ 0) }
    ensures lanes { map (λ one. one.lane) wrapped.new.items ≡ lanes.old.items }
    ensures none { lanes.new.items ≡ [] }
    ensures shares { All (λ one. one.share.amount ≡ 0) wrapped.new.items }
    ensures room { vec_capacity lanes.new ≡ vec_capacity lanes.old }
{
    while !lanes.is_empty() {
        let lane = lanes.remove(0);
        let share = all.split_off(1, 0);
        place(wrapped, SavingLane::new(lane, saver, share));
    }
}

/// Moves each lane back out, for which there is room, and puts the shares together.
pub fn unwrap_lanes<'a, L: Lane, D: Disk, K: SavingRun>(
    all: &mut Share<K>,
    lanes: &mut Vec<L>,
    wrapped: &mut Vec<SavingLane<'a, L, D, K>>,
)
    requires parts { all.old.parts ≡ 0 }
    requires amount { all.old.amount ≡ 0 }
    requires none { lanes.old.items ≡ [] }
    requires room { vec_len wrapped.old ≤ vec_capacity lanes.old }
    ensures parts { all.new.parts ≡ length wrapped.old.items }
    ensures amount { all.new.amount ≡ sum_by (λ one. one.share.amount) wrapped.old.items }
    ensures lanes { lanes.new.items ≡ map (λ one. one.lane) wrapped.old.items }
    ensures empty { wrapped.new.items ≡ [] }
{
    while !wrapped.is_empty() {
        let one = wrapped.remove(0);
        let (lane, share) = one.into_parts();
        all.merge(share);
        place(lanes, lane);
    }
}
