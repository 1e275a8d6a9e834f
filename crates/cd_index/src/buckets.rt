//! What a table keeps by lengths and by hashes.
ghost use Rattle.std.specs.Prelude.{◌≡◌, ◌<◌, ◌≤◌, ◌%◌, ℕ, [], true, false, length, get_or, IfOk};
ghost use Rattle.cd_index.specs.Runs.{Has, IsRun};

use crate::run::put;
use cd_text::{List, NoMemory};
use std::alloc::Global;

/// The larger of two numbers.
pub(crate) fn larger(a: usize, b: usize) -> usize
    ensures first { a ≤ result }
    ensures second { b ≤ result }
    ensures one { (k : ℕ) → a ≤ k → b ≤ k → result ≤ k }
{
    if a < b { b } else { a }
}

/// So many empty buckets, and one at least.
#[tactic(auto, using(crate::proofs::Marks::pushed_empty))]
pub(crate) fn empty_buckets(alloc: Global, count: usize) -> Result<Vec<List<usize>>, NoMemory>
    ensures some { IfOk result (λ buckets. 0 < length buckets.items) }
    ensures empty { IfOk result (λ buckets. (b : ℕ) → get_or buckets.items b [] ≡ []) }
{
    let mut buckets = Vec::new(alloc);
    buckets.push(List::new(alloc))?;
    for _more in 1..count {
        buckets.push(List::new(alloc))?;
    }
    Ok(buckets)
}

/// Marks a length.
#[tactic(auto, using(crate::proofs::Marks::pushed_kept, crate::proofs::Marks::mark_keeps))]
pub(crate) fn mark(lengths: &mut Vec<bool>, long: usize) -> Result<(), NoMemory>
    ensures marked { IfOk result (λ _. get_or lengths.new.items long false ≡ true) }
    ensures kept { IfOk result (λ _. (k : ℕ) → get_or lengths.old.items k false ≡ true → get_or lengths.new.items k false ≡ true) }
{
    while lengths.len() <= long {
        lengths.push(false)?;
    }
    lengths[long] = true;
    Ok(())
}

/// Puts a number into the bucket of a hash.
pub(crate) fn put_in(buckets: &mut Vec<List<usize>>, hash: usize, n: usize) -> Result<(), NoMemory>
    requires some { 0 < length buckets.old.items }
    requires rise { (b : ℕ) → IsRun n (get_or buckets.old.items b []) }
    ensures size { length buckets.new.items ≡ length buckets.old.items }
    ensures rise { (b : ℕ) → IsRun n (get_or buckets.new.items b []) }
    ensures has { IfOk result (λ _. Has n (get_or buckets.new.items (hash % length buckets.old.items) [])) }
    ensures kept { IfOk result (λ _. (k : ℕ) (b : ℕ) → Has k (get_or buckets.old.items b []) → Has k (get_or buckets.new.items b [])) }
{
    let b = hash % buckets.len();
    put(&mut buckets[b], n)?;
    Ok(())
}
