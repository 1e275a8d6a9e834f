ghost use Rattle.std.specs.Prelude.{◌≡◌, ◌++◌, not, slice_get, take, IfOk, OnOk};
ghost use Rattle.cd_outside.specs.Keys.{key_eq, has_key, keys_in, without_holder, pairs_for};
ghost use Rattle.cd_legal.specs.State.{holds};
ghost use Rattle.cd_legal.specs.Legal.{keys_fit};

use cd_outside::{Holder, Key, Pair};
use cd_text::{List, NoMemory};
use std::alloc::Global;
use std::mem;

fn is_among(key: &Key, keys: &[Key]) -> bool
    ensures { result ≡ has_key key.now keys.now }
{
    for other in keys {
        if key.same(other) {
            return true;
        }
    }
    false
}

fn is_held(key: &Key, pairs: &[Pair]) -> bool
    ensures { result ≡ has_key key.now (keys_in pairs.now) }
{
    for pair in pairs {
        if key.same(&pair.key) {
            return true;
        }
    }
    false
}

// The first `taken` keys, or all where there are fewer.
fn prefix(keys: &[Key], taken: u32) -> &[Key]
    ensures { result.now ≡ take taken keys.now }
{
    let taken = taken as usize;
    if taken < keys.len() {
        &keys[..taken]
    } else {
        keys
    }
}

fn is_key_at(key: &Key, keys: &[Key], taken: u32) -> bool
    ensures { result ≡ holds (key_eq key.now) (slice_get keys.now taken) }
{
    match keys.get(taken as usize) {
        Some(next) => key.same(next),
        None => false,
    }
}

fn is_free(key: &Key, pairs: &[Pair], taken: &[Key]) -> bool
    ensures { result ≡ not (has_key key.now (keys_in pairs.now ++ taken.now)) }
{
    !(is_held(key, pairs) || is_among(key, taken))
}

/// Whether all keys are taken, or the first `taken` are and the next one, which nobody has, could not be opened.
pub(crate) fn keys_fit(pairs: &[Pair], keys: &[Key], taken: u32, failed: &Option<Key>) -> bool
    ensures { result ≡ keys_fit (keys_in pairs.now) keys.now taken failed.now }
{
    match failed {
        None => taken as usize == keys.len(),
        Some(key) => is_key_at(key, keys, taken) && is_free(key, pairs, prefix(keys, taken)),
    }
}

/// Adds the holder's pairs of the first `taken` keys.
pub(crate) fn take_keys(
    alloc: Global,
    pairs: &mut List<Pair>,
    holder: Holder,
    keys: &[Key],
    taken: u32,
) -> Result<(), NoMemory>
    ensures { OnOk result (pairs.new ≡ pairs.old ++ pairs_for holder (take taken keys.now)) }
{
    for key in prefix(keys, taken) {
        let key = key.copy(alloc)?;
        pairs.push(Pair { key, holder })?;
    }
    Ok(())
}

/// Takes the holder's pairs away.
pub(crate) fn give_keys(alloc: Global, pairs: &mut List<Pair>, holder: Holder)
    ensures { pairs.new ≡ without_holder holder pairs.old }
{
    let mut kept = mem::replace(pairs, List::new(alloc)).into_vec();
    kept.retain(|pair| !holder.same(&pair.holder));
    *pairs = List::from_vec(kept);
}

/// A copy of the keys.
pub(crate) fn copy_keys(alloc: Global, keys: &[Key]) -> Result<List<Key>, NoMemory>
    ensures { IfOk result (λ made. made ≡ keys.now) }
{
    let mut copies = List::new(alloc);
    for key in keys {
        copies.push(key.copy(alloc)?)?;
    }
    Ok(copies)
}

/// A copy of the key that could not be opened.
pub(crate) fn copy_failed(alloc: Global, failed: &Option<Key>) -> Result<Option<Key>, NoMemory>
    ensures { IfOk result (λ made. made ≡ failed.now) }
{
    match failed {
        None => Ok(None),
        Some(key) => Ok(Some(key.copy(alloc)?)),
    }
}
