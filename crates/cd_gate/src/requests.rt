//! Requests begin and end, each by one atomic step, which waits for nobody and takes no memory.
ghost use Rattle.std.specs.Prelude.{◌≡◌, ◌+◌, ◌%◌, ◌<◌, ◌≤◌, ◌&&◌, ◌==◌, List, Some, None, true, false, cond};
ghost use Rattle.cd_legal.specs.declared.entry.Signed.{Signed};
ghost use Rattle.cd_legal.specs.declared.limits.TheConstants.{MAX_BEGINS, MAX_UNRETIRED};
ghost use Rattle.cd_legal.specs.Legal.{state_at};
ghost use Rattle.cd_gate.specs.declared.table.TheConstants.{BALANCE_WORD};
ghost use Rattle.cd_gate.specs.Counts.{begins_in};
ghost use Rattle.cd_gate.specs.Passes.{view, IsPass, Stays};
ghost use Rattle.cd_gate.specs.Steps.{checking, worn};
ghost use Rattle.cd_gate.specs.Tables.{Found, Begins, Ends};

use crate::gate::Gate;
use crate::pass::Pass;
use crate::plays::{BeginRequest, Check, EndRequest};
use crate::table::{BALANCE_WORD, SERIAL_STEP, SERIAL_WORD};
use cd_legal::{MAX_BEGINS, MAX_UNRETIRED, Stands};

// The word of a serial's balance.
fn balance_word(serial: u32, halted: bool) -> usize
    ensures { result ≡ BALANCE_WORD + cond halted 0 (1 + serial % MAX_UNRETIRED) }
{
    if halted {
        return BALANCE_WORD;
    }
    BALANCE_WORD + 1 + (serial % MAX_UNRETIRED) as usize
}

impl<T: Stands> Gate<T> {
    /// Looks for room for one request more under the current serial. It says no exactly where it finds that `MAX_BEGINS` requests or
    /// more have begun.
    pub fn check(&self, pass: &mut Pass<T>) -> bool
        requires pass { IsPass self.now pass.old }
        ensures pass { Stays self.now pass.old pass.new }
        ensures room { result ≡ true → (log : List Signed) × Found (view pass.old) log × (begins_in log (state_at log).serial < MAX_BEGINS) × (view pass.new ≡ checking (view pass.old) log) }
        ensures worn { result ≡ false → (log : List Signed) × Found (view pass.old) log × (MAX_BEGINS ≤ begins_in log (state_at log).serial) × (view pass.new ≡ worn (view pass.old) log) }
    {
        let found = self.table.shared.load::<Check>(&mut pass.seat, SERIAL_WORD);
        found % SERIAL_STEP < MAX_BEGINS
    }

    /// Begins a request of the pass, which has found room for it, and gives its serial.
    pub fn begin_step(&self, pass: &mut Pass<T>) -> u32
        requires pass { IsPass self.now pass.old }
        requires room { (view pass.old).checked ≡ true }
        requires idle { (view pass.old).ticket ≡ None }
        ensures pass { Stays self.now pass.old pass.new }
        ensures begins { (log : List Signed) × Begins (view pass.old) (view pass.new) result log }
    {
        let found = self
            .table
            .shared
            .fetch_add::<BeginRequest>(&mut pass.seat, SERIAL_WORD, 1);
        (found / SERIAL_STEP) as u32
    }

    /// Ends the request of the pass, which is at this serial; `halted` says whether that is the serial of the halt. It says yes
    /// exactly where the serial is then due: it is a duty of the pass, and may be retired.
    pub fn finish_step(&self, pass: &mut Pass<T>, serial: u32, halted: bool) -> bool
        requires pass { IsPass self.now pass.old }
        requires ticket { (view pass.old).ticket ≡ Some serial }
        requires settled { (view pass.old).unsettled ≡ None }
        requires halted { halted ≡ ((state_at (view pass.old).seen).halted && (serial == (state_at (view pass.old).seen).serial)) }
        ensures pass { Stays self.now pass.old pass.new }
        ensures ends { (log : List Signed) × Ends (view pass.old) (view pass.new) serial result log }
    {
        let word = balance_word(serial, halted);
        self.table
            .shared
            .fetch_sub::<EndRequest>(&mut pass.seat, word, 1)
            == 1
    }
}
