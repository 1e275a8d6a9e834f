ghost use Rattle.std.specs.Prelude.{◌≡◌, ◌<◌, ◌≤◌, ◌+◌, ◌++◌, ◌∷◌, [], length, Some, None, IsSome, IsTrue, is_some, true, slice_get};
ghost use Rattle.std.specs.Vec.{vec_len, vec_capacity};
ghost use Rattle.cd_outside.specs.Keys.{key_count, keys_in, has_key};
ghost use Rattle.cd_pool.specs.Hashes.{AreCounted};
ghost use Rattle.cd_pool.specs.Numbers.{uses};
ghost use Rattle.cd_pool.specs.Pairs.{pairs, pair_at, without};
ghost use Rattle.cd_pool.specs.Slots.{is_key, leases, number_at};

use crate::hashes::{Hashes, hash_of, latest};
use crate::lease::Leased;
use cd_outside::Key;
use std::mem::replace;

/// A pair that is held, with the number of one that was taken before it and has the same hash, as far as is known.
#[derive(Drop)]
pub struct Slot {
    pub leased: Leased,
    pub earlier: usize,
}

/// Takes the pair with this number out of its slot, which is a gap then.
pub(crate) fn take_out(slots: &mut Vec<Option<Slot>>, places: &[usize], number: usize) -> Slot
    requires some { IsSome (pair_at number (leases slots.old.items)) }
    requires once { uses number (leases slots.old.items) ≤ 1 }
    ensures rest { leases slots.new.items ≡ without number (leases slots.old.items) }
    ensures pair { pair_at number (leases slots.old.items) ≡ Some result.leased.pair }
    ensures len { vec_len slots.new ≡ vec_len slots.old }
    ensures capacity { vec_capacity slots.new ≡ vec_capacity slots.old }
{
    let at = place_of(slots.as_slice(), places, number);
    let Some(slot) = replace(&mut slots[at], None) else {
        unreachable!()
    };
    slot
}

/// Where the pair with this number is. It is looked for where it was put, and then everywhere.
fn place_of(slots: &[Option<Slot>], places: &[usize], number: usize) -> usize
    requires { IsSome (pair_at number (leases slots.now)) }
    ensures within { result < length slots.now }
    ensures number { number_at result slots.now ≡ Some number }
{
    if let Some(place) = places.get(number)
        && is_number_at(slots, *place, number)
    {
        return *place;
    }
    for (at, slot) in slots.iter().enumerate() {
        if let Some(slot) = slot
            && slot.leased.number == number
        {
            return at;
        }
    }
    unreachable!()
}

fn is_number_at(slots: &[Option<Slot>], place: usize, number: usize) -> bool
    ensures within { IsTrue result → place < length slots.now }
    ensures number { IsTrue result → number_at place slots.now ≡ Some number }
{
    match slots.get(place) {
        Some(Some(slot)) => slot.leased.number == number,
        _ => false,
    }
}

/// Whether a pair has the key. It is looked for at the pair that was taken last with its hash, and then everywhere.
pub(crate) fn is_held(
    slots: &[Option<Slot>],
    places: &[usize],
    known: bool,
    hashes: &Hashes,
    key: &Key,
) -> bool
    requires { known ≡ true → AreCounted hashes.now (leases slots.now) }
    ensures { result ≡ has_key key.now (keys_in (pairs (leases slots.now))) }
{
    if known {
        match latest(hashes, hash_of(key)) {
            Some(number) => {
                if is_key_of(slots, places, number, key) {
                    return true;
                }
            }
            None => return false,
        }
    }
    is_anywhere(slots, key)
}

fn is_key_of(slots: &[Option<Slot>], places: &[usize], number: usize, key: &Key) -> bool
    ensures { IsTrue result → IsTrue (has_key key.now (keys_in (pairs (leases slots.now)))) }
{
    match places.get(number) {
        Some(place) => is_key_at(slots, *place, key),
        None => false,
    }
}

fn is_key_at(slots: &[Option<Slot>], place: usize, key: &Key) -> bool
    ensures { result ≡ is_key key.now (slice_get slots.now place) }
{
    match slots.get(place) {
        Some(Some(slot)) => key.same(&slot.leased.pair.key),
        _ => false,
    }
}

fn is_anywhere(slots: &[Option<Slot>], key: &Key) -> bool
    ensures { result ≡ has_key key.now (keys_in (pairs (leases slots.now))) }
{
    for slot in slots {
        if let Some(slot) = slot
            && key.same(&slot.leased.pair.key)
        {
            return true;
        }
    }
    false
}

/// Whether a pair has the number.
pub(crate) fn is_named(slots: &[Option<Slot>], number: usize) -> bool
    ensures { result ≡ is_some (pair_at number (leases slots.now)) }
{
    for slot in slots {
        if let Some(slot) = slot
            && slot.leased.number == number
        {
            return true;
        }
    }
    false
}

/// How many pairs have the key.
pub(crate) fn count_in(slots: &[Option<Slot>], key: &Key) -> u64
    ensures { result ≡ key_count key.now (pairs (leases slots.now)) }
{
    let mut count = 0;
    for slot in slots {
        if let Some(slot) = slot
            && key.same(&slot.leased.pair.key)
        {
            count += 1;
        }
    }
    count
}

/// Makes room for a pair more: where there is none left, it closes the gaps.
pub(crate) fn make_room(slots: &mut Vec<Option<Slot>>, places: &mut [usize])
    requires { length (leases slots.old.items) < vec_capacity slots.old }
    ensures same { leases slots.new.items ≡ leases slots.old.items }
    ensures room { vec_len slots.new < vec_capacity slots.new }
    ensures capacity { vec_capacity slots.new ≡ vec_capacity slots.old }
{
    if slots.len() < slots.capacity() {
        return;
    }
    close_gaps(slots, places);
}

/// Adds a pair after the others.
pub(crate) fn put_last(slots: &mut Vec<Option<Slot>>, leased: Leased, earlier: usize)
    requires { vec_len slots.old < vec_capacity slots.old }
    ensures leases { leases slots.new.items ≡ leases slots.old.items ++ leased ∷ [] }
    ensures capacity { vec_capacity slots.new ≡ vec_capacity slots.old }
{
    slots.push_reserved(Some(Slot { leased, earlier }));
}

/// Closes the gaps, and writes down where each pair is then.
fn close_gaps(slots: &mut Vec<Option<Slot>>, places: &mut [usize])
    ensures same { leases slots.new.items ≡ leases slots.old.items }
    ensures len { vec_len slots.new ≡ length (leases slots.new.items) }
    ensures capacity { vec_capacity slots.new ≡ vec_capacity slots.old }
{
    slots.retain(|slot| slot.is_some());
    put_places(slots.as_slice(), places);
}

fn put_places(slots: &[Option<Slot>], places: &mut [usize]) {
    for (at, slot) in slots.iter().enumerate() {
        if let Some(slot) = slot {
            put_place(places, slot.leased.number, at);
        }
    }
}

/// Writes down where the pair with this number is.
pub(crate) fn put_place(places: &mut [usize], number: usize, at: usize) {
    if let Some(place) = places.get_mut(number) {
        *place = at;
    }
}
