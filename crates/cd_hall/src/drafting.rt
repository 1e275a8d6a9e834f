//! Drafts are made, provisioned and started.
ghost use Rattle.std.specs.Prelude.{◌≡◌, ◌<◌, ◌∷◌, [], List, None, Ok, Err, IfOk, IfErr, OnErr, is_err, length, true, false};
ghost use Rattle.cd_outside.specs.Counts.{Rose};
ghost use Rattle.cd_legal.specs.declared.entry.Entry.TheVariants as entry;
ghost use Rattle.cd_legal.specs.declared.entry.Signed.{Signed};
ghost use Rattle.cd_legal.specs.declared.limits.TheConstants.{MAX_DRAFTS};
ghost use Rattle.cd_legal.specs.Entry.{signed};
ghost use Rattle.cd_legal.specs.Legal.{state_at};
ghost use Rattle.cd_legal.specs.Whole.{nothing_left};
ghost use Rattle.cd_gate.specs.Passes.{view, opening_of};
ghost use Rattle.cd_desk.specs.declared.drafts.DraftFault.TheVariants as fault;
ghost use Rattle.cd_desk.specs.Instances.{failed_in};
ghost use Rattle.cd_desk.specs.Lefts.{step_at};
ghost use Rattle.cd_life.specs.Standing.{Stood};
ghost use Rattle.cd_hall.specs.AtHand.{HasDraftInTurn};
ghost use Rattle.cd_hall.specs.Calls.{IsPassOf, StaysCalm};
ghost use Rattle.cd_hall.specs.Drafts.{IsDraftOf, FaultRose, held, new_held, one_made, one_started, key_in, made_entry, started_entry};
ghost use Rattle.cd_hall.specs.GoesOn.{GoesOn};
ghost use Rattle.cd_hall.specs.Turned.{Turned, Makes};
ghost use Rattle.cd_hall.specs.Turns.{InTurn};

use crate::faults::KeyFailed;
use crate::hall::Hall;
use crate::names::{NamesDraft, NamesMade, NamesStarted};
use crate::turns::{add, leave_turn, take_turn};
use cd_gate::{Pass, Turn};
use cd_life::{Board, Draft, DraftFault, Step};
use cd_module_set::{Loaded, ModuleSet};
use cd_outside::{Fixtures, Key};
use std::alloc::Global;
use std::snapshot::Snapshot;
use std::sync::Wait;

impl<M: ModuleSet, F: Fixtures> Hall<M, F> {
    /// Makes a draft of a configuration. The pass has none so far.
    ///
    /// # Errors
    ///
    /// `Spent` where as many drafts were made as a history may have, and `NoMemory`. Nothing is added after both.
    pub fn draft<R: Wait>(
        &self,
        rt: &R,
        alloc: Global,
        pass: &mut Pass<Board<M, F>>,
        loaded: Loaded<M>,
    ) -> Result<Draft<M>, DraftFault>
        requires pass { IsPassOf self.now pass.old }
        requires free { (view pass.old).draft ≡ None }
        ensures pass { IsPassOf self.now pass.new }
        ensures made { IfOk result (λ draft. Makes (view pass.old) (view pass.new) (λ s. entry.Draft draft.left.number loaded.tree loaded.plan ∷ [])) }
        ensures draft { IfOk result (λ draft. IsDraftOf (view pass.new) draft) }
        ensures new { IfOk result (λ draft. held draft ≡ new_held draft.left.number loaded.tree loaded.plan) }
        ensures err { OnErr result (Makes (view pass.old) (view pass.new) (λ s. [])) }
        ensures spent { result ≡ Err fault.Spent → length (state_at (view pass.new).seen).drafts ≡ MAX_DRAFTS }
        ensures duties { (view pass.new).duties ≡ (view pass.old).duties }
    {
        let mut turn = take_turn(rt, &self.gate, pass);
        let drafted = self.draft_in_turn(&mut turn, pass, alloc, loaded);
        leave_turn(&self.gate, turn, pass);
        drafted
    }

    fn draft_in_turn(
        &self,
        turn: &mut Turn<Board<M, F>>,
        pass: &mut Pass<Board<M, F>>,
        alloc: Global,
        loaded: Loaded<M>,
    ) -> Result<Draft<M>, DraftFault>
        requires turn { InTurn (Stood F.calls F.faults M.plan M.change) self.now.gate turn.old pass.old }
        requires free { (view pass.old).draft ≡ None }
        requires left { nothing_left (state_at (view pass.old).seen) ≡ true }
        ensures turn { InTurn (Stood F.calls F.faults M.plan M.change) self.now.gate turn.new pass.new }
        ensures goes { IfOk result (λ draft. GoesOn (view pass.old) (view pass.new) (entry.Draft draft.left.number loaded.tree loaded.plan ∷ [])) }
        ensures draft { IfOk result (λ draft. IsDraftOf (view pass.new) draft) }
        ensures new { IfOk result (λ draft. held draft ≡ new_held draft.left.number loaded.tree loaded.plan) }
        ensures err { OnErr result (view pass.new ≡ view pass.old) }
        ensures checked { (view pass.new).checked ≡ (view pass.old).checked }
        ensures spent { result ≡ Err fault.Spent → length (state_at (view pass.new).seen).drafts ≡ MAX_DRAFTS }
        ensures calm { StaysCalm (view pass.old) (view pass.new) }
    {
        let draft = match turn.value.draft(alloc, loaded) {
            Ok(draft) => draft,
            Err(fault) => return Err(fault),
        };
        let said = Snapshot::of(&draft);
        add::<Board<M, F>, Snapshot<Draft<M>>, NamesDraft<M>>(&self.gate, turn, pass, &said);
        Ok(draft)
    }

    /// Makes the next instance of the pass's draft, and says whether that was the last one.
    ///
    /// # Errors
    ///
    /// The key that could not be opened, for which the fixtures have counted a fault. What was made is held until the draft is
    /// given up.
    pub fn provision<R: Wait>(
        &self,
        rt: &R,
        draft: &mut Draft<M>,
        pass: &mut Pass<Board<M, F>>,
    ) -> Result<Step, KeyFailed>
        requires pass { IsPassOf self.now pass.old }
        requires draft { IsDraftOf (view pass.old) draft.old }
        requires more { (held draft.old).made < length (held draft.old).plan.modules }
        requires unfailed { (held draft.old).failed ≡ false }
        ensures pass { IsPassOf self.now pass.new }
        ensures made { (found : List Signed) × Turned (view pass.old) (view pass.new) found (made_entry (held draft.old) (key_in result) ∷ []) }
        ensures cause { IfErr result (λ _. FaultRose (Stood F.calls F.faults M.plan M.change) (λ board. F.faults board.desk.fixtures) (opening_of self.now.gate) (view pass.new).seen (signed (view pass.old).number (made_entry (held draft.old) (key_in result)))) }
        ensures held { held draft.new ≡ one_made (held draft.old) (is_err result) }
        ensures draft { IsDraftOf (view pass.new) draft.new }
        ensures step { IfOk result (λ step. step ≡ step_at (held draft.new).made (length (held draft.new).plan.modules)) }
        ensures duties { (view pass.new).duties ≡ (view pass.old).duties }
    {
        let mut turn = take_turn(rt, &self.gate, pass);
        let made = self.make_in_turn(&mut turn, pass, draft);
        leave_turn(&self.gate, turn, pass);
        failing(made)
    }

    fn make_in_turn(
        &self,
        turn: &mut Turn<Board<M, F>>,
        pass: &mut Pass<Board<M, F>>,
        draft: &mut Draft<M>,
    ) -> Result<Step, Key>
        requires more { (held draft.old).made < length (held draft.old).plan.modules }
        requires draft { HasDraftInTurn (Stood F.calls F.faults M.plan M.change) self.now.gate turn.old pass.old draft.old }
        ensures turn { InTurn (Stood F.calls F.faults M.plan M.change) self.now.gate turn.new pass.new }
        ensures goes { GoesOn (view pass.old) (view pass.new) (made_entry (held draft.old) (failed_in result) ∷ []) }
        ensures held { held draft.new ≡ one_made (held draft.old) (is_err result) }
        ensures draft { IsDraftOf (view pass.new) draft.new }
        ensures step { IfOk result (λ step. step ≡ step_at (held draft.new).made (length (held draft.new).plan.modules)) }
        ensures cause { IfErr result (λ _. Rose (F.faults turn.old.value.desk.fixtures) (F.faults turn.new.value.desk.fixtures)) }
        ensures calm { StaysCalm (view pass.old) (view pass.new) }
    {
        let was = Snapshot::of(&*draft);
        let made = turn.value.make(draft);
        let said = Snapshot::of(&made);
        add::<Board<M, F>, (Snapshot<Draft<M>>, Snapshot<Result<Step, Key>>), NamesMade<M>>(
            &self.gate,
            turn,
            pass,
            &(was, said),
        );
        made
    }

    /// Starts the next app of the pass's draft, in the same way. All its instances are made.
    ///
    /// # Errors
    ///
    /// The key that could not be opened, for which the fixtures have counted a fault.
    pub fn start<R: Wait>(
        &self,
        rt: &R,
        draft: &mut Draft<M>,
        pass: &mut Pass<Board<M, F>>,
    ) -> Result<Step, KeyFailed>
        requires pass { IsPassOf self.now pass.old }
        requires draft { IsDraftOf (view pass.old) draft.old }
        requires ready { (held draft.old).made ≡ length (held draft.old).plan.modules }
        requires more { (held draft.old).started < length (held draft.old).plan.apps }
        requires unfailed { (held draft.old).failed ≡ false }
        ensures pass { IsPassOf self.now pass.new }
        ensures started { (found : List Signed) × Turned (view pass.old) (view pass.new) found (started_entry (held draft.old) (key_in result) ∷ []) }
        ensures cause { IfErr result (λ _. FaultRose (Stood F.calls F.faults M.plan M.change) (λ board. F.faults board.desk.fixtures) (opening_of self.now.gate) (view pass.new).seen (signed (view pass.old).number (started_entry (held draft.old) (key_in result)))) }
        ensures held { held draft.new ≡ one_started (held draft.old) (is_err result) }
        ensures draft { IsDraftOf (view pass.new) draft.new }
        ensures step { IfOk result (λ step. step ≡ step_at (held draft.new).started (length (held draft.new).plan.apps)) }
        ensures duties { (view pass.new).duties ≡ (view pass.old).duties }
    {
        let mut turn = take_turn(rt, &self.gate, pass);
        let started = self.start_in_turn(&mut turn, pass, draft);
        leave_turn(&self.gate, turn, pass);
        failing(started)
    }

    fn start_in_turn(
        &self,
        turn: &mut Turn<Board<M, F>>,
        pass: &mut Pass<Board<M, F>>,
        draft: &mut Draft<M>,
    ) -> Result<Step, Key>
        requires ready { (held draft.old).made ≡ length (held draft.old).plan.modules }
        requires more { (held draft.old).started < length (held draft.old).plan.apps }
        requires draft { HasDraftInTurn (Stood F.calls F.faults M.plan M.change) self.now.gate turn.old pass.old draft.old }
        ensures turn { InTurn (Stood F.calls F.faults M.plan M.change) self.now.gate turn.new pass.new }
        ensures goes { GoesOn (view pass.old) (view pass.new) (started_entry (held draft.old) (failed_in result) ∷ []) }
        ensures held { held draft.new ≡ one_started (held draft.old) (is_err result) }
        ensures draft { IsDraftOf (view pass.new) draft.new }
        ensures step { IfOk result (λ step. step ≡ step_at (held draft.new).started (length (held draft.new).plan.apps)) }
        ensures cause { IfErr result (λ _. Rose (F.faults turn.old.value.desk.fixtures) (F.faults turn.new.value.desk.fixtures)) }
        ensures calm { StaysCalm (view pass.old) (view pass.new) }
    {
        let was = Snapshot::of(&*draft);
        let started = turn.value.start(draft);
        let said = Snapshot::of(&started);
        add::<Board<M, F>, (Snapshot<Draft<M>>, Snapshot<Result<Step, Key>>), NamesStarted<M>>(
            &self.gate,
            turn,
            pass,
            &(was, said),
        );
        started
    }
}

// The key that could not be opened, by its name.
fn failing(opened: Result<Step, Key>) -> Result<Step, KeyFailed>
    ensures key { key_in result ≡ failed_in opened }
    ensures err { is_err result ≡ is_err opened }
    ensures ok { IfOk result (λ step. opened ≡ Ok step) }
    ensures fault { IfErr result (λ failed. opened ≡ Err failed.key) }
{
    match opened {
        Ok(step) => Ok(step),
        Err(key) => Err(KeyFailed { key }),
    }
}
