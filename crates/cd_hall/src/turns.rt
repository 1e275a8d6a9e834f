// A turn: it is taken, entries are added in it, and it is left. Whatever is guarded, it stands for what the pass has seen without
// Begin and Finish.
ghost use Rattle.std.specs.Prelude.{◌≡◌, ◌≤◌, ◌++◌, ◌∷◌, [], ℕ, List, Some, None, slice_get, true, false};
ghost use Rattle.cd_legal.specs.declared.entry.Signed.{Signed};
ghost use Rattle.cd_legal.specs.declared.limits.TheConstants.{LAST_SERIAL};
ghost use Rattle.cd_legal.specs.Entry.{signed};
ghost use Rattle.cd_legal.specs.Laws.{core_at};
ghost use Rattle.cd_legal.specs.Legal.{state_at};
ghost use Rattle.cd_legal.specs.Signing.{IsHistory};
ghost use Rattle.cd_legal.specs.Whole.{nothing_left};
ghost use Rattle.cd_gate.specs.Knowing.{Knows};
ghost use Rattle.cd_gate.specs.Passes.{view, IsIdleOf, HasTurnOf, opening_of};
ghost use Rattle.cd_gate.specs.Steps.{may_note, with_turn, without_turn, noted};
ghost use Rattle.cd_gate.specs.Tables.{FoundInTurn};
ghost use Rattle.cd_hall.specs.GoesOn.{GoesOn};
ghost use Rattle.cd_hall.specs.Since.{Since};
ghost use Rattle.cd_hall.specs.Turns.{InTurn};

use cd_gate::{Gate, Names, Pass, Turn};
use cd_legal::Stands;
use std::sync::Wait;

// The pass has the turn. Nothing is left to be stopped or cleaned, and its draft is as it was.
pub(crate) fn take_turn<T: Stands, R: Wait>(rt: &R, gate: &Gate<T>, pass: &mut Pass<T>) -> Turn<T>
    requires { IsIdleOf gate.now pass.old }
    ensures turn { InTurn T.stands gate.now result pass.new }
    ensures since { Since (view pass.old) (view pass.new) (view pass.new).seen [] }
    ensures same { view pass.new ≡ with_turn (view pass.old) (view pass.new).seen }
    ensures left { nothing_left (state_at (view pass.new).seen) ≡ true }
    ensures room { (state_at (view pass.new).seen).halted ≡ false → (state_at (view pass.new).seen).serial ≤ LAST_SERIAL }
    ensures draft { (d : ℕ) → (view pass.old).draft ≡ Some d → slice_get (state_at (view pass.new).seen).drafts d ≡ slice_get (state_at (view pass.old).seen).drafts d }
{
    gate.enter(rt, pass)
}

// Adds the entry that was just made on what is guarded.
pub(crate) fn add<T: Stands, X, N: Names<X>>(
    gate: &Gate<T>,
    turn: &mut Turn<T>,
    pass: &mut Pass<T>,
    about: &X,
)
    requires turn { HasTurnOf gate.now pass.old }
    requires knows { Knows (view pass.old) }
    requires board { T.stands (opening_of gate.now) turn.old.value (core_at (view pass.old).seen ++ signed (view pass.old).number (N.entry about.now) ∷ []) }
    requires may { may_note (view pass.old) (N.entry about.now) ≡ true }
    ensures turn { InTurn T.stands gate.now turn.new pass.new }
    ensures noted { (log : List Signed) × FoundInTurn (view pass.old) log × (view pass.new ≡ noted (view pass.old) log (N.entry about.now)) × IsHistory (log ++ signed (view pass.old).number (N.entry about.now) ∷ []) }
    ensures goes { GoesOn (view pass.old) (view pass.new) (N.entry about.now ∷ []) }
    ensures unsettled { (view pass.new).unsettled ≡ (view pass.old).unsettled }
    ensures same { turn.new ≡ turn.old }
{
    gate.note::<X, N>(turn, pass, about);
}

// The turn is free. What the pass has made in it is all that it has made since it took it.
pub(crate) fn leave_turn<T: Stands>(gate: &Gate<T>, turn: Turn<T>, pass: &mut Pass<T>)
    requires turn { HasTurnOf gate.now pass.old }
    requires settled { (view pass.old).unsettled ≡ None }
    requires board { T.stands (opening_of gate.now) turn.value (core_at (view pass.old).seen) }
    requires left { nothing_left (state_at (view pass.old).seen) ≡ true }
    ensures pass { IsIdleOf gate.now pass.new }
    ensures seen { view pass.new ≡ without_turn (view pass.old) }
{
    gate.leave(turn, pass);
}
