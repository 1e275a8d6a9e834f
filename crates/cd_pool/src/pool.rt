ghost use Rattle.std.specs.Prelude.{◌≡◌, ◌≢◌, ◌<◌, ◌≤◌, ◌+◌, ◌-◌, ◌++◌, ◌∷◌, ◌↔◌, [], ℕ, List, cond, max, length, Some, None, IsSome, IfSome, IsTrue, is_some, OnOk, OnErr};
ghost use Rattle.std.specs.Vec.{vec_len, vec_capacity};
ghost use Rattle.cd_outside.specs.declared.holder.Holder.{Holder};
ghost use Rattle.cd_outside.specs.Keys.{key_count, keys_in, has_key};
ghost use Rattle.cd_pool.specs.declared.lease.Took.TheVariants as took;
ghost use Rattle.cd_pool.specs.declared.lease.Gave.TheVariants as gave;
ghost use Rattle.cd_pool.specs.Pairs.{pairs, pair_at, without, leases_of, GivesLast};
ghost use Rattle.cd_pool.specs.Numbers.{numbers_from};

use crate::hashes::{Hashes, forget, hash_of, latest, note};
use crate::lease::{Gave, Lease, Leased, Took};
use crate::slots::{Slot, count_in, is_held, is_named, make_room, put_last, put_place, take_out};
use cd_outside::{Holder, Key, Pair};
use cd_text::NoMemory;
use std::alloc::Global;
use std::marker::Model;

/// Who holds which key, in the order of taking, and for how many pairs more there is room.
///
/// A pool is not dropped but ended, once it has no pair, so that no key is forgotten that should be closed.
pub struct Pool {
    // the pairs in their order, with gaps where some were given back, so that none changes its place
    pub(crate) slots: Vec<Option<Slot>>,
    pub(crate) count: usize,
    // the numbers of the leases to come; for each there is room in the slots, and for all numbers here
    pub(crate) free: Vec<usize>,
    // where the pair of each number was put; a pair is looked for there first
    pub(crate) places: Vec<usize>,
    // how many keys have each hash, as long as that is known
    pub(crate) hashes: Hashes,
    pub(crate) known: bool,
}

impl Model for Pool {
    ghost use Rattle.std.specs.Prelude.{length};
    ghost use Rattle.std.specs.Vec.{vec_capacity};
    ghost use Rattle.cd_pool.specs.Pairs.{Holdings};
    ghost use Rattle.cd_pool.specs.Slots.{leases, IsPool};

    ghost Value = { Holdings };

    ghost view = { λ pool. record { held = leases pool.slots.items; spare = length pool.free.items } };

    ghost invariant = { λ pool. IsPool pool.slots.items pool.free.items pool.count (vec_capacity pool.slots) (vec_capacity pool.free) pool.known pool.hashes };
}

// Adds the numbers in a row, for which there is room.
fn add_numbers(free: &mut Vec<usize>, from: usize, to: usize)
    requires order { from ≤ to }
    requires room { vec_len free.old + (to - from) ≤ vec_capacity free.old }
    ensures items { free.new.items ≡ free.old.items ++ numbers_from from (to - from) }
    ensures len { vec_len free.new ≡ vec_len free.old + (to - from) }
    ensures capacity { vec_capacity free.new ≡ vec_capacity free.old }
{
    for number in from..to {
        free.push_reserved(number);
    }
}

// Adds so many places at which nothing was put.
fn add_places(places: &mut Vec<usize>, count: usize)
    requires { vec_len places.old + count ≤ vec_capacity places.old }
{
    for _ in 0..count {
        places.push_reserved(0);
    }
}

fn given_back(is_held: bool, key: Key) -> Gave
    ensures { result ≡ cond is_held gave.Still (gave.Last key) }
{
    if is_held {
        Gave::Still
    } else {
        Gave::Last(key)
    }
}

impl Pool {
    /// A pool without pairs, and without room for one.
    pub fn new(alloc: Global) -> Pool
        ensures { result ≡ record { held = []; spare = 0 } }
    {
        Pool {
            slots: Vec::new(alloc),
            count: 0,
            free: Vec::new(alloc),
            places: Vec::new(alloc),
            hashes: Hashes::new(alloc),
            known: true,
        }
    }

    /// Ends a pool without pairs.
    pub fn end(self)
        requires { self.held ≡ [] }
    {
        let Pool {
            slots: _slots,
            count: _count,
            free: _free,
            places: _places,
            hashes: _hashes,
            known: _known,
        } = self;
    }

    /// Whether it has no pair.
    pub fn is_empty(&self) -> bool
        ensures { IsTrue result ↔ (self.now.held ≡ []) }
    {
        self.count == 0
    }

    /// For how many pairs more there is room.
    pub fn spare(&self) -> usize
        ensures { result ≡ self.now.spare }
    {
        self.free.len()
    }

    /// Makes room for so many pairs at least, beside those that are there.
    pub fn reserve(&mut self, count: u32) -> Result<(), NoMemory>
        ensures held { self.new.held ≡ self.old.held }
        ensures ok { OnOk result (self.new.spare ≡ max count self.old.spare) }
        ensures err { OnErr result (self.new.spare ≡ self.old.spare) }
    {
        let count = count as usize;
        let spare = self.free.len();
        if count <= spare {
            return Ok(());
        }
        let numbers = self.count + spare;
        let missing = count - spare;
        // With room for twice as many, gaps are closed only after as many pairs were given back.
        self.slots.reserve(count + count)?;
        self.free.reserve(self.count + missing)?;
        self.places.reserve(missing)?;
        self.hashes.reserve(count)?;
        add_numbers(&mut self.free, numbers, numbers + missing);
        add_places(&mut self.places, missing);
        Ok(())
    }

    /// Adds a pair at the end, with a lease that no other pair has. It takes no memory.
    pub fn take(&mut self, key: Key, holder: Holder) -> (Lease, Took)
        requires { 0 < self.old.spare }
        ensures held { self.new.held ≡ self.old.held ++ record { number = result.0; pair = record { key = key; holder = holder } } ∷ [] }
        ensures spare { self.new.spare + 1 ≡ self.old.spare }
        ensures new { pair_at result.0 self.old.held ≡ None }
        ensures named { pair_at result.0 self.new.held ≡ Some (record { key = key; holder = holder }) }
        ensures others { (n : ℕ) → n ≢ result.0 → pair_at n self.new.held ≡ pair_at n self.old.held }
        ensures took { result.1 ≡ cond (has_key key (keys_in (pairs self.old.held))) took.Shared took.First }
    {
        let took = if self.has(&key) {
            Took::Shared
        } else {
            Took::First
        };
        let Some(number) = self.free.pop() else {
            unreachable!()
        };
        make_room(&mut self.slots, self.places.as_mut_slice());
        put_place(self.places.as_mut_slice(), number, self.slots.len());
        let hash = hash_of(&key);
        let earlier = latest(&self.hashes, hash).unwrap_or(number);
        self.known = note(self.known, &mut self.hashes, hash, number);
        let leased = Leased {
            number,
            pair: Pair { key, holder },
        };
        put_last(&mut self.slots, leased, earlier);
        self.count += 1;
        (Lease { number }, took)
    }

    /// Removes the lease's pair; the others stay in their order. It takes no memory.
    pub fn give(&mut self, lease: Lease) -> Gave
        requires { IsSome (pair_at lease self.old.held) }
        ensures held { self.new.held ≡ without lease self.old.held }
        ensures spare { self.new.spare ≡ self.old.spare + 1 }
        ensures gone { pair_at lease self.new.held ≡ None }
        ensures others { (n : ℕ) → n ≢ lease → pair_at n self.new.held ≡ pair_at n self.old.held }
        ensures gave { IfSome (pair_at lease self.old.held) (λ pair. result ≡ cond (has_key pair.key (keys_in (pairs self.new.held))) gave.Still (gave.Last pair.key)) }
        ensures last { (h : Holder) (ns : List ℕ) → leases_of h self.old.held ≡ ns ++ lease ∷ [] → GivesLast h ns lease self.old.held self.new.held }
    {
        let Lease { number } = lease;
        let Slot { leased, earlier } = take_out(&mut self.slots, self.places.as_slice(), number);
        let key = leased.pair.key;
        self.count -= 1;
        self.free.push_reserved(number);
        let hash = hash_of(&key);
        self.known = forget(self.known, &mut self.hashes, hash, number, earlier);
        let is_held = self.has(&key);
        given_back(is_held, key)
    }

    /// Whether the lease names a pair of this pool.
    pub fn holds(&self, lease: &Lease) -> bool
        ensures { result ≡ is_some (pair_at lease.now self.now.held) }
    {
        is_named(self.slots.as_slice(), lease.number)
    }

    /// Whether somebody has the key.
    pub fn has(&self, key: &Key) -> bool
        ensures { result ≡ has_key key.now (keys_in (pairs self.now.held)) }
    {
        is_held(
            self.slots.as_slice(),
            self.places.as_slice(),
            self.known,
            &self.hashes,
            key,
        )
    }

    /// How many pairs have the key.
    pub fn count(&self, key: &Key) -> u64
        ensures { result ≡ key_count key.now (pairs self.now.held) }
    {
        count_in(self.slots.as_slice(), key)
    }
}
