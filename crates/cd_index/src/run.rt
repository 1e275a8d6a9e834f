//! Lists of rising numbers.
ghost use Rattle.std.specs.Prelude.{◌≤◌, ℕ, IfOk};
ghost use Rattle.cd_index.specs.Runs.{Has, IsRising, IsRun};

use cd_text::{List, NoMemory};

/// The greatest of rising numbers up to a limit; 0 where there is none.
pub(crate) fn greatest_to(run: &[usize], limit: usize) -> usize
    requires { IsRising run.now }
    ensures at_most { result ≤ limit }
    ensures greatest { (n : ℕ) → Has n run.now → n ≤ limit → n ≤ result }
{
    let mut low = 0usize;
    let mut high = run.len();
    while low < high {
        let middle = low + (high - low) / 2;
        if run[middle] <= limit {
            low = middle + 1;
        } else {
            high = middle;
        }
    }
    if low == 0 { 0 } else { run[low - 1] }
}

/// Puts a number at the end, unless it is there.
pub(crate) fn put(run: &mut List<usize>, n: usize) -> Result<(), NoMemory>
    requires { IsRun n run.old }
    ensures rises { IsRun n run.new }
    ensures has { IfOk result (λ _. Has n run.new) }
    ensures kept { IfOk result (λ _. (k : ℕ) → Has k run.old → Has k run.new) }
{
    if let Some(last) = run.as_slice().last() {
        if *last == n {
            return Ok(());
        }
    }
    run.push(n)?;
    Ok(())
}
