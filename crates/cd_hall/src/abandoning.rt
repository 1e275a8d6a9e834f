//! Drafts are given up.
ghost use Rattle.std.specs.Prelude.{◌≡◌, ◌∷◌, [], None, true};
ghost use Rattle.cd_legal.specs.declared.entry.Entry.TheVariants.{Abandon};
ghost use Rattle.cd_legal.specs.Legal.{state_at};
ghost use Rattle.cd_legal.specs.Runs.{ended_all};
ghost use Rattle.cd_legal.specs.Whole.{nothing_left};
ghost use Rattle.cd_gate.specs.Passes.{view};
ghost use Rattle.cd_desk.specs.Closings.{IsClosing, MayClean};
ghost use Rattle.cd_life.specs.Standing.{Stood};
ghost use Rattle.cd_hall.specs.Calls.{IsPassOf, StaysCalm};
ghost use Rattle.cd_hall.specs.Drafts.{IsDraftOf, held};
ghost use Rattle.cd_hall.specs.GoesOn.{GoesOn};
ghost use Rattle.cd_hall.specs.Spread.{Spreads};
ghost use Rattle.cd_hall.specs.Turns.{InTurn};

use crate::freeing::free_out_of_turn;
use crate::hall::Hall;
use crate::names::NamesAbandon;
use crate::stopping::{clean_all, stop_all};
use crate::turns::{add, leave_turn, take_turn};
use cd_gate::{Gate, Pass, Turn};
use cd_life::{Abandoned, Board, Closing, Draft, Removed};
use cd_module_set::ModuleSet;
use cd_outside::Fixtures;
use std::sync::Wait;

impl<M: ModuleSet, F: Fixtures> Hall<M, F> {
    /// Gives the pass's draft up. Its apps are stopped, and then its instances are cleaned, the last one first. Its configuration is
    /// freed once the turn is free.
    pub fn abandon<R: Wait>(&self, rt: &R, draft: Draft<M>, pass: &mut Pass<Board<M, F>>)
        requires pass { IsPassOf self.now pass.old }
        requires draft { IsDraftOf (view pass.old) draft }
        ensures pass { IsPassOf self.now pass.new }
        ensures spreads { Spreads (view pass.old) (view pass.new) (λ s. Abandon (held draft).number ∷ ended_all (held draft).number (held draft).made (held draft).started) }
        ensures duties { (view pass.new).duties ≡ (view pass.old).duties }
    {
        let mut turn = take_turn(rt, &self.gate, pass);
        let removed = abandon_in_turn(&self.gate, &mut turn, pass, draft);
        leave_turn(&self.gate, turn, pass);
        free_out_of_turn(&self.gate, &*pass, Some(removed));
    }
}

// Gives the pass's draft up, ends all that it has made, and hands its configuration back.
pub(crate) fn abandon_in_turn<M: ModuleSet, F: Fixtures>(
    gate: &Gate<Board<M, F>>,
    turn: &mut Turn<Board<M, F>>,
    pass: &mut Pass<Board<M, F>>,
    draft: Draft<M>,
) -> Removed<M>
    requires turn { InTurn (Stood F.calls F.faults M.plan M.change) gate.now turn.old pass.old }
    requires draft { IsDraftOf (view pass.old) draft }
    requires left { nothing_left (state_at (view pass.old).seen) ≡ true }
    ensures turn { InTurn (Stood F.calls F.faults M.plan M.change) gate.now turn.new pass.new }
    ensures goes { GoesOn (view pass.old) (view pass.new) (Abandon draft.left.number ∷ ended_all draft.left.number draft.left.made draft.left.started) }
    ensures calm { StaysCalm (view pass.old) (view pass.new) }
    ensures removed { result.loaded ≡ draft.loaded }
{
    let Abandoned {
        mut closing,
        removed,
    } = note_abandon(gate, turn, pass, draft);
    stop_all(gate, turn, pass, &mut closing);
    clean_all(gate, turn, pass, &mut closing);
    turn.value.closed(closing);
    removed
}

// Gives the pass's draft up, notes it, and hands its configuration back.
fn note_abandon<M: ModuleSet, F: Fixtures>(
    gate: &Gate<Board<M, F>>,
    turn: &mut Turn<Board<M, F>>,
    pass: &mut Pass<Board<M, F>>,
    draft: Draft<M>,
) -> Abandoned<M>
    requires turn { InTurn (Stood F.calls F.faults M.plan M.change) gate.now turn.old pass.old }
    requires draft { IsDraftOf (view pass.old) draft }
    ensures turn { InTurn (Stood F.calls F.faults M.plan M.change) gate.now turn.new pass.new }
    ensures goes { GoesOn (view pass.old) (view pass.new) (Abandon draft.left.number ∷ []) }
    ensures unsettled { (view pass.new).unsettled ≡ (view pass.old).unsettled }
    ensures closing { result.closing ≡ record { number = draft.left.number; serial = None; apps = draft.left.started; instances = draft.left.made } }
    ensures at { IsClosing turn.new.value.desk result.closing }
    ensures clean { MayClean turn.new.value.desk.books draft.left.number }
    ensures removed { result.removed.loaded ≡ draft.loaded }
{
    let abandoned = turn.value.abandon(draft);
    add::<Board<M, F>, Closing, NamesAbandon>(gate, turn, pass, &abandoned.closing);
    abandoned
}
