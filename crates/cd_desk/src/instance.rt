ghost use Rattle.std.specs.Prelude.{◌≡◌, ◌≤◌, ◌<◌, ◌+◌, ◌++◌, ◌∷◌, [], ℕ, List, IsSome, length, take, reverse, IfOk, IfErr, cond, is_ok};
ghost use Rattle.std.specs.Vec.{vec_len, vec_capacity};
ghost use Rattle.cd_outside.specs.Counts.{Rose};
ghost use Rattle.cd_outside.specs.declared.holder.Holder.{Holder};
ghost use Rattle.cd_pool.specs.Pairs.{leases_of, pair_at, GivesLast};
ghost use Rattle.cd_desk.specs.Instances.{Acquires, Takes, Gives, Releases};

use cd_outside::{Fixtures, Holder, Key, Opened};
use cd_pool::{Gave, Lease, Pool};

/// What an instance of a module, or an app, holds. It is not dropped but ended, so that no key is forgotten.
pub struct Instance {
    // the keys to be taken, the first one last
    pub(crate) waiting: Vec<Key>,
    // in the order of taking
    pub(crate) leases: Vec<Lease>,
    ghost room: { vec_len waiting + vec_len leases ≤ vec_capacity leases },
}

// Takes the key, and opens it where nobody has it. A key that could not be opened comes back.
fn acquire<F: Fixtures>(
    pool: &mut Pool,
    fixtures: &mut F,
    key: Key,
    holder: Holder,
) -> Result<Lease, Key>
    requires { 0 < pool.old.spare }
    ensures acquires { Acquires key holder pool.old.held pool.new.held (F.calls fixtures.old) (F.calls fixtures.new) result }
    ensures spare { pool.new.spare + cond (is_ok result) 1 0 ≡ pool.old.spare }
    ensures later { F.faults fixtures.old ≤ F.faults fixtures.new }
    ensures cause { IfErr result (λ _. Rose (F.faults fixtures.old) (F.faults fixtures.new)) }
{
    if !pool.has(&key) {
        match fixtures.open_key(&key) {
            Opened::Ready => {}
            Opened::Failed => return Err(key),
        }
    }
    let (lease, _) = pool.take(key, holder);
    Ok(lease)
}

// Gives the lease back, and closes its key where nobody else has it.
fn release<F: Fixtures>(pool: &mut Pool, fixtures: &mut F, lease: Lease)
    requires { IsSome (pair_at lease pool.old.held) }
    ensures releases { Releases (pair_at lease pool.old.held) pool.new.held (F.calls fixtures.old) (F.calls fixtures.new) }
    ensures last { (h : Holder) (ns : List ℕ) → leases_of h pool.old.held ≡ ns ++ lease ∷ [] → GivesLast h ns lease pool.old.held pool.new.held }
    ensures faults { F.faults fixtures.new ≡ F.faults fixtures.old }
    ensures spare { pool.new.spare ≡ pool.old.spare + 1 }
{
    match pool.give(lease) {
        Gave::Last(key) => fixtures.close_key(&key),
        Gave::Still => {}
    }
}

impl Instance {
    // Takes the keys that wait, in order, up to one that could not be opened. After it none waits.
    pub(crate) fn take_all<F: Fixtures>(
        &mut self,
        pool: &mut Pool,
        fixtures: &mut F,
        holder: Holder,
    ) -> Result<(), Key>
        requires spare { length self.old.waiting.items ≤ pool.old.spare }
        requires new { self.old.leases.items ≡ [] }
        requires none { leases_of holder pool.old.held ≡ [] }
        ensures takes { Takes (reverse self.old.waiting.items) holder pool.old.held pool.new.held (F.calls fixtures.old) (F.calls fixtures.new) self.new.leases.items result }
        ensures spare { pool.old.spare ≤ pool.new.spare + length self.old.waiting.items }
        ensures none { self.new.waiting.items ≡ [] }
        ensures later { F.faults fixtures.old ≤ F.faults fixtures.new }
        ensures cause { IfErr result (λ _. Rose (F.faults fixtures.old) (F.faults fixtures.new)) }
    {
        while let Some(key) = self.waiting.pop() {
            match acquire(pool, fixtures, key, holder) {
                Ok(lease) => self.leases.push_reserved(lease),
                Err(key) => {
                    self.waiting.clear();
                    return Err(key);
                }
            }
        }
        Ok(())
    }

    // Gives all leases back, the last one first, and closes each key that nobody else has.
    pub(crate) fn give_all<F: Fixtures>(
        &mut self,
        pool: &mut Pool,
        fixtures: &mut F,
        holder: Holder,
    )
        requires leases { self.old.leases.items ≡ leases_of holder pool.old.held }
        ensures gives { Gives holder pool.old.held pool.new.held (F.calls fixtures.old) (F.calls fixtures.new) }
        ensures empty { self.new.leases.items ≡ [] }
        ensures waiting { self.new.waiting.items ≡ self.old.waiting.items }
        ensures faults { F.faults fixtures.new ≡ F.faults fixtures.old }
        ensures spare { pool.old.spare ≤ pool.new.spare }
    {
        while let Some(lease) = self.leases.pop() {
            release(pool, fixtures, lease);
        }
    }

    // Spends what holds nothing.
    pub(crate) fn end(self)
        requires { self.leases.items ≡ [] }
    {
        let Instance { waiting, leases } = self;
        drop(waiting);
        leases.destroy_empty();
    }
}
