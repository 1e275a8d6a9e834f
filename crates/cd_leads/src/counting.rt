//! What numbers count with those that they name. Each count ends at `usize::MAX`, so that those in one another are counted in as
//! many steps as there are names, however large the counts are.
ghost use Rattle.std.specs.Prelude.{◌≡◌, ◌+◌, ℕ, IfOk, get_or, length, map, min, sum};
ghost use Rattle.cd_leads.specs.Orders.{IsOrder};
ghost use Rattle.cd_leads.specs.Totals.{AreCounts, count_of, counted_at, total};

use cd_text::{List, NoMemory};
use std::alloc::Global;

/// The count of a number; 0 beyond the list.
pub fn count_of(counts: &[usize], n: usize) -> usize
    ensures { result ≡ count_of counts.now n }
{
    match counts.get(n) {
        Some(count) => *count,
        None => 0,
    }
}

/// What these numbers count together, each as often as it is there.
pub fn sum_of(numbers: &[usize], counts: &[usize]) -> usize
    ensures { result ≡ min (sum (map (count_of counts.now) numbers.now)) usize.MAX }
{
    let mut found = 0usize;
    for n in numbers {
        found = found.saturating_add(count_of(counts, *n));
    }
    found
}

// Counts one number anew.
fn count_one(lists: &[List<usize>], own: &[usize], n: usize, counts: &mut [usize])
    ensures { counts.new ≡ counted_at lists.now own.now n counts.old }
{
    if n >= counts.len() {
        return;
    }
    if let Some(named) = lists.get(n) {
        let count = count_of(own, n).saturating_add(sum_of(named.as_slice(), counts));
        counts[n] = count;
    }
}

// Counts all, in an order in which each stands after those that it names.
#[tactic(auto, using(crate::proofs::Totalling::step_right, crate::proofs::Totalling::all_right, crate::proofs::Totalling::size_kept))]
fn count_all(lists: &[List<usize>], own: &[usize], order: &[usize], counts: &mut [usize])
    requires order { IsOrder lists.now order.now }
    requires size { length counts.old ≡ length lists.now }
    ensures { (count : ℕ → ℕ) → AreCounts (length lists.now) own.now count → (n : ℕ) → count_of counts.new n ≡ min (total lists.now count n) usize.MAX }
{
    for n in order {
        count_one(lists, own, *n, counts);
    }
}

/// So many zeros.
pub(crate) fn zeros(alloc: Global, count: usize) -> Result<Vec<usize>, NoMemory>
    ensures { IfOk result (λ made. length made.items ≡ count) }
{
    let mut values = Vec::new(alloc);
    for _place in 0..count {
        values.push(0)?;
    }
    Ok(values)
}

/// What each number counts with those that it names, and with what these name: by itself as much as `own` says. The order is one
/// in which each stands after those that it names. It takes as many steps as there are names.
pub fn totals(
    alloc: Global,
    lists: &[List<usize>],
    own: &[usize],
    order: &[usize],
) -> Result<Vec<usize>, NoMemory>
    requires { IsOrder lists.now order.now }
    ensures { IfOk result (λ made. (count : ℕ → ℕ) → AreCounts (length lists.now) own.now count → (n : ℕ) → count_of made.items n ≡ min (total lists.now count n) usize.MAX) }
{
    let mut counts = zeros(alloc, lists.len())?;
    count_all(lists, own, order, &mut counts);
    Ok(counts)
}
