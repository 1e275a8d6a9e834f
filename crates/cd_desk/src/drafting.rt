ghost use Rattle.std.specs.Prelude.{◌≡◌, ◌≤◌, ◌+◌, ◌<◌, ◌^◌, [], length, reverse, map, IfOk, All, sum_by, IfSome};
ghost use Rattle.std.specs.Vec.{vec_len, vec_capacity};
ghost use Rattle.cd_desk.specs.Waiting.{AllWait, IsEmpty, waits};

use crate::books::Books;
use crate::instance::Instance;
use cd_legal::{PlanApp, PlanModule};
use cd_outside::Key;
use cd_text::NoMemory;
use std::alloc::Global;

// Copies of the keys, the last one first.
fn copies(alloc: Global, keys: &[Key]) -> Result<Vec<Key>, NoMemory>
    ensures { IfOk result (λ made. reverse made.items ≡ keys.now) }
{
    let mut made = Vec::new(alloc);
    for key in keys {
        made.push(key.copy(alloc)?)?;
    }
    made.as_mut_slice().reverse();
    Ok(made)
}

// An instance that is to take these keys, with room for their leases.
fn instance_for(alloc: Global, keys: &[Key]) -> Result<Instance, NoMemory>
    ensures { IfOk result (λ made. (reverse made.waiting.items ≡ keys.now) × (made.leases.items ≡ [])) }
{
    let waiting = copies(alloc, keys)?;
    let mut leases = Vec::new(alloc);
    if leases.reserve(waiting.len()).is_err() {
        leases.destroy_empty();
        return Err(NoMemory);
    }
    Ok(Instance { waiting, leases })
}

// Spends instances that hold nothing.
pub(crate) fn end_all(mut parts: Vec<Instance>)
    requires { All IsEmpty parts.items }
{
    while let Some(part) = parts.pop() {
        part.end();
    }
    parts.destroy_empty();
}

// An instance for each module.
pub(crate) fn modules_for(alloc: Global, modules: &[PlanModule]) -> Result<Vec<Instance>, NoMemory>
    ensures { IfOk result (λ made. AllWait made.items (map (λ m. m.keys) modules.now)) }
{
    let mut parts = Vec::new(alloc);
    if parts.reserve(modules.len()).is_err() {
        parts.destroy_empty();
        return Err(NoMemory);
    }
    for module in modules {
        match instance_for(alloc, module.keys.as_slice()) {
            Ok(part) => parts.push_reserved(part),
            Err(error) => {
                end_all(parts);
                return Err(error);
            }
        }
    }
    Ok(parts)
}

// An instance for each app.
pub(crate) fn apps_for(alloc: Global, apps: &[PlanApp]) -> Result<Vec<Instance>, NoMemory>
    ensures { IfOk result (λ made. AllWait made.items (map (λ m. m.keys) apps.now)) }
{
    let mut parts = Vec::new(alloc);
    if parts.reserve(apps.len()).is_err() {
        parts.destroy_empty();
        return Err(NoMemory);
    }
    for app in apps {
        match instance_for(alloc, app.keys.as_slice()) {
            Ok(part) => parts.push_reserved(part),
            Err(error) => {
                end_all(parts);
                return Err(error);
            }
        }
    }
    Ok(parts)
}

// How many keys the instances are to take, as far as that can be counted.
fn waiting(parts: &[Instance]) -> Option<usize>
    ensures { IfSome result (λ n. n ≡ sum_by waits parts.now) }
{
    let mut keys: usize = 0;
    for part in parts {
        keys = keys.checked_add(part.waiting.len())?;
    }
    Some(keys)
}

// How many keys these are to take.
fn both_waiting(modules: &[Instance], apps: &[Instance]) -> Option<usize>
    ensures { IfSome result (λ n. n ≡ sum_by waits modules.now + sum_by waits apps.now) }
{
    waiting(modules)?.checked_add(waiting(apps)?)
}

// How many there are with so many more.
fn sum(keys: usize, more: usize) -> Option<u32>
    ensures { IfSome result (λ n. n ≡ keys + more) }
{
    u32::try_from(keys.checked_add(more)?).ok()
}

// Makes room in the pool for these instances beside those that wait, and for a row. The answer is how many keys they are to take.
pub(crate) fn make_room(books: &mut Books, modules: &[Instance], apps: &[Instance]) -> Option<usize>
    ensures next { books.new.next ≡ books.old.next }
    ensures rows { books.new.rows.items ≡ books.old.rows.items }
    ensures waits { books.new.waits ≡ books.old.waits }
    ensures held { books.new.pool.held ≡ books.old.pool.held }
    ensures keys { IfSome result (λ n. n ≡ sum_by waits modules.now + sum_by waits apps.now) }
    ensures sum { IfSome result (λ n. books.old.waits + n < 2 ^ 64) }
    ensures room { IfSome result (λ n. books.old.waits + n ≤ books.new.pool.spare) }
    ensures place { IfSome result (λ _. vec_len books.new.rows < vec_capacity books.new.rows) }
{
    let more = both_waiting(modules, apps)?;
    let keys = sum(books.waits, more)?;
    if books.rows.reserve(1).is_err() {
        return None;
    }
    if books.pool.reserve(keys).is_err() {
        return None;
    }
    Some(more)
}

// How many keys the instances are to take, which are not too many to be counted.
pub(crate) fn count_waiting(parts: &[Instance]) -> usize
    requires { sum_by waits parts.now < 2 ^ 64 }
    ensures { result ≡ sum_by waits parts.now }
{
    let mut keys = 0;
    for part in parts {
        keys += part.waiting.len();
    }
    keys
}
