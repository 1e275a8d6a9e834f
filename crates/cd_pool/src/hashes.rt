ghost use Rattle.std.specs.Prelude.{◌≡◌, ◌+◌, ◌==◌, ℕ, cond, nat_eq, IsTrue, IfNone};
ghost use Rattle.std.specs.HashMap.{get};
ghost use Rattle.cd_pool.specs.Hashes.{mixed as mixed_of, hashed, hash_of as hash_of_key, counted};

use cd_outside::Key;
use std::collections::HashMap;

/// What FNV-1a begins with, in 64 bits.
pub(crate) const BASIS: u64 = 14_695_981_039_346_656_037;

/// What FNV-1a multiplies with, in 64 bits.
pub(crate) const PRIME: u64 = 1_099_511_628_211;

/// The pairs whose keys have one hash: how many there are, and the number of the one that was taken last, as far as is known.
#[derive(Clone, Copy)]
pub struct Seen {
    pub count: usize,
    pub latest: usize,
}

/// What is known of the pairs of each hash that some key has.
pub(crate) type Hashes = HashMap<u64, Seen>;

/// The hash of a key: FNV-1a (Fowler, Noll, Vo) of its text, and of the port where it is an address.
pub(crate) fn hash_of(key: &Key) -> u64
    ensures { result ≡ hash_of_key key.now }
{
    match key {
        Key::Listen(address) => mixed(
            hash_of_bytes(address.host.as_str().as_bytes()),
            address.port as u64,
        ),
        Key::Writer(name) => hash_of_bytes(name.as_str().as_bytes()),
    }
}

fn hash_of_bytes(bytes: &[u8]) -> u64
    ensures { result ≡ hashed BASIS bytes.now }
{
    let mut hash = BASIS;
    for byte in bytes {
        hash = mixed(hash, *byte as u64);
    }
    hash
}

fn mixed(hash: u64, part: u64) -> u64
    ensures { result ≡ mixed_of hash part }
{
    (hash ^ part).wrapping_mul(PRIME)
}

/// The number of a pair whose key has the hash, or `None` where no key has it. The number is where to look first, and may be
/// out of date.
pub(crate) fn latest(hashes: &Hashes, hash: u64) -> Option<usize>
    ensures { IfNone result (counted (get nat_eq hashes.now hash) ≡ 0) }
{
    match hashes.get(&hash) {
        Some(seen) => Some(seen.latest),
        None => None,
    }
}

/// Counts one pair more. It says whether all pairs are counted then, which they are if they were and there was room.
pub(crate) fn note(known: bool, hashes: &mut Hashes, hash: u64, number: usize) -> bool
    ensures known { IsTrue result → IsTrue known }
    ensures counted { IsTrue result → (q : ℕ) → counted (get nat_eq hashes.new q)
        ≡ cond (hash == q) (1 + counted (get nat_eq hashes.old q)) (counted (get nat_eq hashes.old q)) }
{
    let count = match hashes.get(&hash) {
        Some(seen) => seen.count,
        None => 0,
    };
    if !known || count == usize::MAX {
        return false;
    }
    let seen = Seen {
        count: count + 1,
        latest: number,
    };
    hashes.insert(hash, seen).is_ok()
}

/// Counts one pair less. It says whether all pairs are counted then. Where it was the latest, that is the one before it.
pub(crate) fn forget(
    known: bool,
    hashes: &mut Hashes,
    hash: u64,
    number: usize,
    earlier: usize,
) -> bool
    ensures known { IsTrue result → IsTrue known }
    ensures counted { IsTrue result → (q : ℕ) → counted (get nat_eq hashes.old q)
        ≡ cond (hash == q) (1 + counted (get nat_eq hashes.new q)) (counted (get nat_eq hashes.new q)) }
{
    let (count, latest) = match hashes.get(&hash) {
        Some(seen) => (seen.count, seen.latest),
        None => (0, 0),
    };
    if !known || count == 0 {
        return false;
    }
    if count == 1 {
        hashes.remove(&hash);
        return true;
    }
    let seen = Seen {
        count: count - 1,
        latest: if latest == number { earlier } else { latest },
    };
    hashes.insert(hash, seen).is_ok()
}
