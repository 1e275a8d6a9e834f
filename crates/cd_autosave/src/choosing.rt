// Which slot is kept as the saver is opened.
ghost use Rattle.std.specs.Prelude.{◌≡◌, ◌≤◌, List, ℕ, length, IfSome, option_map};
ghost use Rattle.cd_tree.specs.Tree.{IsSound};
ghost use Rattle.cd_autosave.specs.declared.slot.Slot.TheVariants as slot;
ghost use Rattle.cd_autosave.specs.Disk.{IsDurable};
ghost use Rattle.cd_autosave.specs.Opening.{IsFound, IsOpened, count_or, gate_for, kept_of, record_of, slots_over};
ghost use Rattle.cd_autosave.specs.Saving.{IsKept, held_of};

use crate::found::{Found, FoundSlots, Record};
use crate::limits::MAX_NUMBER;
use crate::slots::Slots;
use crate::{Disk, Gate, Slot};
use cd_tree::Tree;

/// The slot that is kept, and what it holds.
pub struct Chosen {
    pub slot: Slot,
    pub held: Option<Record>,
}

// The record with the greater number, the first where both are equal.
fn choose(first: Option<Record>, second: Option<Record>) -> Chosen
    ensures slot { result.slot ≡ kept_of first second }
    ensures held { result.held ≡ record_of first second }
{
    match (first, second) {
        (None, second) => Chosen {
            slot: Slot::Second,
            held: second,
        },
        (Some(first), None) => Chosen {
            slot: Slot::First,
            held: Some(first),
        },
        (Some(first), Some(second)) => greater(first, second),
    }
}

fn greater(first: Record, second: Record) -> Chosen
    ensures slot { result.slot ≡ kept_of (Some first) (Some second) }
    ensures held { result.held ≡ record_of (Some first) (Some second) }
{
    if first.number < second.number {
        Chosen {
            slot: Slot::Second,
            held: Some(second),
        }
    } else {
        Chosen {
            slot: Slot::First,
            held: Some(first),
        }
    }
}

// The gate of a slot, of the two.
fn gate_of_slot(slot: Slot, first: Gate, second: Gate) -> Gate
    ensures { result ≡ gate_for slot first second }
{
    match slot {
        Slot::First => first,
        Slot::Second => second,
    }
}

fn number_in(held: &Option<Record>) -> Option<u64>
    ensures number { result ≡ option_map (λ (r : _). r.number) held.now }
    ensures small { IfSome result (λ n. n ≤ MAX_NUMBER) }
{
    match held {
        Some(record) => Some(record.number),
        None => None,
    }
}

fn tree_in(held: Option<Record>) -> Option<Tree>
    ensures tree { result ≡ option_map (λ (r : _). r.tree) held }
    ensures sound { IfSome result IsSound }
{
    match held {
        Some(Record { number: _, tree }) => Some(tree),
        None => None,
    }
}

/// The slots of a disk as it is opened, and the tree that was saved last.
pub struct Arranged<D> {
    pub slots: Slots<D>,
    pub tree: Option<Tree>,
}

// Keeps the slot with the greater number, so that the next save takes the other.
pub fn arrange<D: Disk>(disk: D, both: FoundSlots) -> Arranged<D>
    requires durable { IsDurable (D.seen disk) (D.left_now disk) }
    requires first { IfSome (D.seen disk) (λ image. IsFound slot.First image both.first) }
    requires second { IfSome (D.seen disk) (λ image. IsFound slot.Second image both.second) }
    ensures disk { result.slots.disk ≡ disk }
    ensures kept { IsKept D.seen D.left_now result.slots }
    ensures sound { IfSome result.tree IsSound }
    ensures opened { IfSome (D.seen disk) (λ image. IsOpened (held_of D.seen result.slots) result.slots.found result.tree image) }
{
    let FoundSlots { first, second } = both;
    let Found {
        gate: first_gate,
        held: first,
    } = first;
    let Found {
        gate: second_gate,
        held: second,
    } = second;
    let Chosen { slot, held } = choose(first, second);
    let number = number_in(&held);
    Arranged {
        slots: Slots {
            disk,
            found: number.unwrap_or(0),
            held: number,
            next: slot.other(),
            gate: gate_of_slot(slot.other(), first_gate, second_gate),
            kept_gate: gate_of_slot(slot, first_gate, second_gate),
            settled: true,
        },
        tree: tree_in(held),
    }
}
