//! The host is halted.
ghost use Rattle.std.specs.Prelude.{◌≡◌, ◌≤◌, ◌<◌, ◌+◌, ◌++◌, ◌∷◌, [], List, Some, None, IfOk, OnErr, true, false};
ghost use Rattle.cd_legal.specs.declared.entry.Entry.TheVariants.{Halt};
ghost use Rattle.cd_legal.specs.declared.entry.Signed.{Signed};
ghost use Rattle.cd_legal.specs.declared.limits.TheConstants.{LAST_SERIAL};
ghost use Rattle.cd_legal.specs.Laws.{core_at};
ghost use Rattle.cd_legal.specs.Legal.{state_at};
ghost use Rattle.cd_legal.specs.Runs.{stopped_of};
ghost use Rattle.cd_legal.specs.Signing.{IsHistory};
ghost use Rattle.cd_legal.specs.Whole.{nothing_left};
ghost use Rattle.cd_gate.specs.declared.table.TheConstants.{SERIAL_STEP};
ghost use Rattle.cd_gate.specs.Passes.{view, HasTurnOf, opening_of};
ghost use Rattle.cd_life.specs.Standing.{Stood};
ghost use Rattle.cd_hall.specs.Calls.{IsPassOf, duties_in};
ghost use Rattle.cd_hall.specs.Dues.{DueLater};
ghost use Rattle.cd_hall.specs.GoesOn.{GoesOn, IsHalt};
ghost use Rattle.cd_hall.specs.Spread.{Spread};
ghost use Rattle.cd_hall.specs.Turned.{Makes};
ghost use Rattle.cd_hall.specs.Turns.{InTurn};

use crate::duty::Duty;
use crate::faults::Halted;
use crate::hall::Hall;
use crate::requests::duty_of;
use crate::superseding::stop_superseded;
use crate::turns::{leave_turn, take_turn};
use cd_gate::{Gate, Pass, Turn};
use cd_life::Board;
use cd_module_set::ModuleSet;
use cd_outside::Fixtures;
use std::sync::Wait;

impl<M: ModuleSet, F: Fixtures> Hall<M, F> {
    /// Halts the host: no configuration follows, and the apps of the last one are stopped. A duty comes exactly where no request runs
    /// under its serial when that is settled, after the apps were stopped. So none comes while the pass itself has a request there.
    ///
    /// # Errors
    ///
    /// `Halted` exactly where the host was halted before.
    pub fn halt<R: Wait>(
        &self,
        rt: &R,
        pass: &mut Pass<Board<M, F>>,
    ) -> Result<Option<Duty>, Halted>
        requires pass { IsPassOf self.now pass.old }
        ensures pass { IsPassOf self.now pass.new }
        ensures spreads { IfOk result (λ duty. (found : List Signed) × Spread (view pass.old) (view pass.new) found (Halt ((state_at found).serial + 1) ∷ stopped_of (state_at found) (state_at found).serial) × ((state_at found).halted ≡ false) × DueLater (view pass.new).seen (state_at found).serial (duties_in duty) × ((view pass.new).duties ≡ duties_in duty ++ (view pass.old).duties)) }
        ensures lent { IfOk result (λ duty. (found : List Signed) × Spread (view pass.old) (view pass.new) found (Halt ((state_at found).serial + 1) ∷ stopped_of (state_at found) (state_at found).serial) × ((view pass.old).ticket ≡ Some (state_at found).serial → duties_in duty ≡ [])) }
        ensures err { OnErr result (Makes (view pass.old) (view pass.new) (λ s. []) × ((state_at (view pass.new).seen).halted ≡ true) × ((view pass.new).duties ≡ (view pass.old).duties)) }
    {
        let mut turn = take_turn(rt, &self.gate, pass);
        let halted = halt_once(&self.gate, &mut turn, pass);
        leave_turn(&self.gate, turn, pass);
        halted
    }
}

// Halts the host, unless it was halted before.
fn halt_once<M: ModuleSet, F: Fixtures>(
    gate: &Gate<Board<M, F>>,
    turn: &mut Turn<Board<M, F>>,
    pass: &mut Pass<Board<M, F>>,
) -> Result<Option<Duty>, Halted>
    requires turn { InTurn (Stood F.calls F.faults M.plan M.change) gate.now turn.old pass.old }
    requires settled { (view pass.old).unsettled ≡ None }
    requires room { (state_at (core_at (view pass.old).seen)).halted ≡ false → (state_at (core_at (view pass.old).seen)).serial ≤ LAST_SERIAL }
    requires left { nothing_left (state_at (view pass.old).seen) ≡ true }
    ensures turn { HasTurnOf gate.now pass.new }
    ensures board { Stood F.calls F.faults M.plan M.change (opening_of gate.now) turn.new.value (core_at (view pass.new).seen) }
    ensures halts { IfOk result (λ duty. IsHalt (view pass.old) (view pass.new) (duties_in duty)) }
    ensures err { OnErr result ((view pass.new ≡ view pass.old) × ((state_at (core_at (view pass.old).seen)).halted ≡ true)) }
    ensures settled { (view pass.new).unsettled ≡ None }
    ensures left { nothing_left (state_at (view pass.new).seen) ≡ true }
    ensures checked { (view pass.new).checked ≡ (view pass.old).checked }
    ensures history { IsHistory (view pass.new).seen }
{
    if turn.value.halted() {
        return Err(Halted);
    }
    Ok(halt_in_turn(gate, turn, pass))
}

// Halts the host, which runs, stops its apps, and settles its last serial.
fn halt_in_turn<M: ModuleSet, F: Fixtures>(
    gate: &Gate<Board<M, F>>,
    turn: &mut Turn<Board<M, F>>,
    pass: &mut Pass<Board<M, F>>,
) -> Option<Duty>
    requires turn { InTurn (Stood F.calls F.faults M.plan M.change) gate.now turn.old pass.old }
    requires settled { (view pass.old).unsettled ≡ None }
    requires running { (state_at (core_at (view pass.old).seen)).halted ≡ false }
    requires room { (state_at (core_at (view pass.old).seen)).serial ≤ LAST_SERIAL }
    requires left { nothing_left (state_at (view pass.old).seen) ≡ true }
    ensures turn { HasTurnOf gate.now pass.new }
    ensures board { Stood F.calls F.faults M.plan M.change (opening_of gate.now) turn.new.value (core_at (view pass.new).seen) }
    ensures halts { IsHalt (view pass.old) (view pass.new) (duties_in result) }
    ensures settled { (view pass.new).unsettled ≡ None }
    ensures left { nothing_left (state_at (view pass.new).seen) ≡ true }
    ensures checked { (view pass.new).checked ≡ (view pass.old).checked }
    ensures history { IsHistory (view pass.new).seen }
{
    let serial = turn.value.serial();
    let begins = note_halt(gate, turn, pass, serial);
    stop_superseded(gate, turn, pass, serial);
    let due = gate.settle_step(turn, pass, serial, begins);
    duty_of(serial, due)
}

// Supersedes the serial by the Halt, halts the board, and says how many requests began under the serial.
fn note_halt<M: ModuleSet, F: Fixtures>(
    gate: &Gate<Board<M, F>>,
    turn: &mut Turn<Board<M, F>>,
    pass: &mut Pass<Board<M, F>>,
    serial: u32,
) -> u64
    requires turn { InTurn (Stood F.calls F.faults M.plan M.change) gate.now turn.old pass.old }
    requires settled { (view pass.old).unsettled ≡ None }
    requires running { (state_at (view pass.old).seen).halted ≡ false }
    requires current { (serial ≡ (state_at (view pass.old).seen).serial) × (serial ≤ LAST_SERIAL) }
    ensures turn { InTurn (Stood F.calls F.faults M.plan M.change) gate.now turn.new pass.new }
    ensures goes { GoesOn (view pass.old) (view pass.new) (Halt (serial + 1) ∷ []) }
    ensures unsettled { (view pass.new).unsettled ≡ Some (record { serial = serial; begins = result }) }
    ensures few { result < SERIAL_STEP }
{
    let begins = gate.halt_step(turn, pass, serial);
    turn.value.halt();
    begins
}
