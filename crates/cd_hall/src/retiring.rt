//! Serials are retired.
ghost use Rattle.std.specs.Prelude.{◌≡◌, ◌∷◌, [], true};
ghost use Rattle.cd_legal.specs.declared.entry.Entry.TheVariants.{Retire};
ghost use Rattle.cd_legal.specs.Legal.{state_at};
ghost use Rattle.cd_legal.specs.Runs.{block_of};
ghost use Rattle.cd_legal.specs.State.{has_number};
ghost use Rattle.cd_legal.specs.Whole.{nothing_left};
ghost use Rattle.cd_gate.specs.Duties.{without_number};
ghost use Rattle.cd_gate.specs.Passes.{view};
ghost use Rattle.cd_life.specs.Removals.{HandsBack};
ghost use Rattle.cd_life.specs.Standing.{Stood};
ghost use Rattle.cd_hall.specs.Calls.{IsPassOf};
ghost use Rattle.cd_hall.specs.GoesOn.{GoesOn};
ghost use Rattle.cd_hall.specs.Spread.{Spreads};
ghost use Rattle.cd_hall.specs.Turns.{InTurn};

use crate::duty::Duty;
use crate::freeing::free_out_of_turn;
use crate::hall::Hall;
use crate::names::NamesRetire;
use crate::superseding::clean_retired;
use crate::turns::{add, leave_turn, take_turn};
use cd_gate::{Gate, Pass, Turn};
use cd_life::{Board, Removed};
use cd_module_set::ModuleSet;
use cd_outside::Fixtures;
use std::sync::Wait;

impl<M: ModuleSet, F: Fixtures> Hall<M, F> {
    /// Retires the serial of a duty of the pass. Its instances are cleaned, the last one first, and its configuration is freed once
    /// the turn is free.
    pub fn retire<R: Wait>(&self, rt: &R, duty: Duty, pass: &mut Pass<Board<M, F>>)
        requires pass { IsPassOf self.now pass.old }
        requires duty { has_number duty.serial (view pass.old).duties ≡ true }
        ensures pass { IsPassOf self.now pass.new }
        ensures spreads { Spreads (view pass.old) (view pass.new) (λ s. block_of s duty.serial) }
        ensures duties { (view pass.new).duties ≡ without_number duty.serial (view pass.old).duties }
    {
        let mut turn = take_turn(rt, &self.gate, pass);
        let removed = retire_in_turn(&self.gate, &mut turn, pass, duty);
        leave_turn(&self.gate, turn, pass);
        free_out_of_turn(&self.gate, &*pass, removed);
    }
}

// Retires the serial of a duty of the pass, cleans its instances, and hands back what was kept of it.
pub(crate) fn retire_in_turn<M: ModuleSet, F: Fixtures>(
    gate: &Gate<Board<M, F>>,
    turn: &mut Turn<Board<M, F>>,
    pass: &mut Pass<Board<M, F>>,
    duty: Duty,
) -> Option<Removed<M>>
    requires turn { InTurn (Stood F.calls F.faults M.plan M.change) gate.now turn.old pass.old }
    requires duty { has_number duty.serial (view pass.old).duties ≡ true }
    requires left { nothing_left (state_at (view pass.old).seen) ≡ true }
    ensures turn { InTurn (Stood F.calls F.faults M.plan M.change) gate.now turn.new pass.new }
    ensures goes { GoesOn (view pass.old) (view pass.new) (block_of (state_at (view pass.old).seen) duty.serial) }
    ensures unsettled { (view pass.new).unsettled ≡ (view pass.old).unsettled }
    ensures duties { (view pass.new).duties ≡ without_number duty.serial (view pass.old).duties }
    ensures left { nothing_left (state_at (view pass.new).seen) ≡ true }
{
    let Duty { serial } = duty;
    let removed = note_retire(gate, turn, pass, serial);
    clean_retired(gate, turn, pass, serial);
    removed
}

// Retires the serial, notes it, and hands back what was kept of it.
fn note_retire<M: ModuleSet, F: Fixtures>(
    gate: &Gate<Board<M, F>>,
    turn: &mut Turn<Board<M, F>>,
    pass: &mut Pass<Board<M, F>>,
    serial: u32,
) -> Option<Removed<M>>
    requires turn { InTurn (Stood F.calls F.faults M.plan M.change) gate.now turn.old pass.old }
    requires duty { has_number serial (view pass.old).duties ≡ true }
    ensures turn { InTurn (Stood F.calls F.faults M.plan M.change) gate.now turn.new pass.new }
    ensures goes { GoesOn (view pass.old) (view pass.new) (Retire serial ∷ []) }
    ensures unsettled { (view pass.new).unsettled ≡ (view pass.old).unsettled }
    ensures removed { HandsBack serial turn.old.value.kept.items turn.new.value.kept.items result }
{
    let removed = turn.value.retire(serial);
    add::<Board<M, F>, u32, NamesRetire>(gate, turn, pass, &serial);
    removed
}
