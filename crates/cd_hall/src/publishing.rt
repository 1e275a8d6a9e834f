//! Drafts are published.
ghost use Rattle.std.specs.Prelude.{◌≡◌, ◌≤◌, ◌<◌, ◌+◌, ◌∷◌, [], List, Some, None, IfOk, IfErr, true, false};
ghost use Rattle.cd_legal.specs.declared.entry.Entry.TheVariants.{Publish};
ghost use Rattle.cd_legal.specs.declared.entry.Signed.{Signed};
ghost use Rattle.cd_legal.specs.declared.limits.TheConstants.{LAST_SERIAL};
ghost use Rattle.cd_legal.specs.Laws.{core_at};
ghost use Rattle.cd_legal.specs.Legal.{state_at};
ghost use Rattle.cd_legal.specs.Runs.{stopped_of};
ghost use Rattle.cd_legal.specs.Signing.{IsHistory};
ghost use Rattle.cd_legal.specs.State.{conf_of};
ghost use Rattle.cd_legal.specs.Whole.{nothing_left};
ghost use Rattle.cd_gate.specs.declared.table.TheConstants.{SERIAL_STEP};
ghost use Rattle.cd_gate.specs.Passes.{view, HasTurnOf, opening_of};
ghost use Rattle.cd_life.specs.Fits.{Suits};
ghost use Rattle.cd_life.specs.Origins.{change_of};
ghost use Rattle.cd_life.specs.Shares.{conf_in};
ghost use Rattle.cd_life.specs.Standing.{Stood};
ghost use Rattle.cd_hall.specs.Calls.{IsPassOf, StaysCalm};
ghost use Rattle.cd_hall.specs.Drafts.{IsDraftOf, IsWholeDraft, held};
ghost use Rattle.cd_hall.specs.Follows.{MayFollow};
ghost use Rattle.cd_hall.specs.GoesOn.{GoesOn, Settles};
ghost use Rattle.cd_hall.specs.Publishing.{refusal, refusal_in, draft_in};
ghost use Rattle.cd_hall.specs.Room.{unretired_before};
ghost use Rattle.cd_hall.specs.Spread.{Spread};
ghost use Rattle.cd_hall.specs.Tickets.{IsTicketOf};
ghost use Rattle.cd_hall.specs.Turned.{Makes};
ghost use Rattle.cd_hall.specs.Turns.{InTurn};

use crate::hall::{Hall, Ticket};
use crate::kept::Kept;
use crate::names::NamesPublish;
use crate::superseding::stop_superseded;
use crate::turns::{leave_turn, take_turn};
use cd_gate::{Gate, Pass, Turn};
use cd_legal::{LAST_SERIAL, MAX_UNRETIRED};
use cd_life::{Board, Draft, Origin};
use cd_module_set::ModuleSet;
use cd_outside::Fixtures;
use std::snapshot::Snapshot;
use std::sync::Wait;

// A draft that is to be published after the configuration with this serial, and where it comes from.
struct Successor<M: ModuleSet> {
    draft: Draft<M>,
    serial: u32,
    origin: Origin,
}

impl<M: ModuleSet, F: Fixtures> Hall<M, F> {
    /// Publishes the pass's draft, all of which is made and started, after the configuration of its request. The apps of this are
    /// then stopped. The change makes the draft's tree of that of the request.
    ///
    /// # Errors
    ///
    /// The first of these that holds, with the draft. Nothing is added.
    /// - `Superseded` exactly where a later configuration is current, with its serial.
    /// - `Full` exactly where the serial is not retired from which on `MAX_UNRETIRED` would be unretired.
    /// - `Exhausted` exactly where no serial is left, but for a halt.
    pub fn publish<R: Wait>(
        &self,
        rt: &R,
        draft: Draft<M>,
        ticket: &Ticket<M>,
        origin: Origin,
        pass: &mut Pass<Board<M, F>>,
    ) -> Result<(), Kept<M>>
        requires pass { IsPassOf self.now pass.old }
        requires ticket { IsTicketOf (view pass.old) ticket.now }
        requires draft { IsDraftOf (view pass.old) draft }
        requires whole { IsWholeDraft (held draft) }
        requires change { Suits M.change (conf_in ticket.now.share) (change_of origin) (held draft).tree }
        ensures pass { IsPassOf self.now pass.new }
        ensures spreads { IfOk result (λ _. (found : List Signed) × Spread (view pass.old) (view pass.new) found (Publish (held draft).number (ticket.now.serial + 1) ticket.now.serial (change_of origin) ∷ stopped_of (state_at found) ticket.now.serial) × (refusal (state_at found) ticket.now.serial ≡ None)) }
        ensures kept { IfErr result (λ kept. Makes (view pass.old) (view pass.new) (λ s. []) × (draft_in kept ≡ draft) × IsDraftOf (view pass.new) (draft_in kept) × (Some (refusal_in kept) ≡ refusal (state_at (view pass.new).seen) ticket.now.serial)) }
        ensures duties { (view pass.new).duties ≡ (view pass.old).duties }
    {
        let mut turn = take_turn(rt, &self.gate, pass);
        let published = publish_in_turn(&self.gate, &mut turn, pass, draft, ticket.serial, origin);
        leave_turn(&self.gate, turn, pass);
        published
    }
}

// Publishes the pass's draft after the configuration of its request, where nothing hinders it.
pub(crate) fn publish_in_turn<M: ModuleSet, F: Fixtures>(
    gate: &Gate<Board<M, F>>,
    turn: &mut Turn<Board<M, F>>,
    pass: &mut Pass<Board<M, F>>,
    draft: Draft<M>,
    serial: u32,
    origin: Origin,
) -> Result<(), Kept<M>>
    requires turn { InTurn (Stood F.calls F.faults M.plan M.change) gate.now turn.old pass.old }
    requires settled { (view pass.old).unsettled ≡ None }
    requires draft { IsDraftOf (view pass.old) draft }
    requires whole { IsWholeDraft (held draft) }
    requires ticket { (view pass.old).ticket ≡ Some serial }
    requires there { serial ≤ (state_at (core_at (view pass.old).seen)).serial }
    requires change { Suits M.change (conf_of (state_at (view pass.old).seen) serial) (change_of origin) (held draft).tree }
    requires room { (state_at (core_at (view pass.old).seen)).halted ≡ false → (state_at (core_at (view pass.old).seen)).serial ≤ LAST_SERIAL }
    requires left { nothing_left (state_at (view pass.old).seen) ≡ true }
    ensures turn { HasTurnOf gate.now pass.new }
    ensures board { Stood F.calls F.faults M.plan M.change (opening_of gate.now) turn.new.value (core_at (view pass.new).seen) }
    ensures publishes { IfOk result (λ _. Settles (view pass.old) (view pass.new) (Publish draft.left.number (serial + 1) serial (change_of origin) ∷ stopped_of (state_at (core_at (view pass.old).seen)) serial) [] × (refusal (state_at (core_at (view pass.old).seen)) serial ≡ None)) }
    ensures kept { IfErr result (λ kept. (view pass.new ≡ view pass.old) × (draft_in kept ≡ draft) × (Some (refusal_in kept) ≡ refusal (state_at (core_at (view pass.old).seen)) serial)) }
    ensures calm { StaysCalm (view pass.old) (view pass.new) }
    ensures checked { (view pass.new).checked ≡ (view pass.old).checked }
    ensures history { IsHistory (view pass.new).seen }
{
    let current = turn.value.serial();
    if serial < current {
        return Err(Kept::Superseded(current, draft));
    }
    if let Some(full) = unretired_before(&turn.value, current) {
        return Err(Kept::Full(full, draft));
    }
    if current == LAST_SERIAL {
        return Err(Kept::Exhausted(draft));
    }
    let successor = Successor {
        draft,
        serial,
        origin,
    };
    publish_next(gate, turn, pass, successor);
    Ok(())
}

// The serial that is to be retired before another one follows, where it is not.
fn unretired_before<M: ModuleSet, F: Fixtures>(board: &Board<M, F>, current: u32) -> Option<u32>
    ensures { (opening : _) (log : List Signed) → Stood F.calls F.faults M.plan M.change opening board.now log → result ≡ unretired_before (state_at log) current }
{
    if current < MAX_UNRETIRED - 1 {
        return None;
    }
    let oldest = current - (MAX_UNRETIRED - 1);
    if board.retired(oldest) {
        return None;
    }
    Some(oldest)
}

// Publishes the pass's draft after the current configuration, stops the apps of this, and settles its serial. No duty comes: the
// request of the pass runs under it.
fn publish_next<M: ModuleSet, F: Fixtures>(
    gate: &Gate<Board<M, F>>,
    turn: &mut Turn<Board<M, F>>,
    pass: &mut Pass<Board<M, F>>,
    successor: Successor<M>,
)
    requires turn { InTurn (Stood F.calls F.faults M.plan M.change) gate.now turn.old pass.old }
    requires left { nothing_left (state_at (view pass.old).seen) ≡ true }
    requires follows { MayFollow M.change (view pass.old) successor }
    ensures turn { HasTurnOf gate.now pass.new }
    ensures board { Stood F.calls F.faults M.plan M.change (opening_of gate.now) turn.new.value (core_at (view pass.new).seen) }
    ensures settles { Settles (view pass.old) (view pass.new) (Publish successor.draft.left.number (successor.serial + 1) successor.serial (change_of successor.origin) ∷ stopped_of (state_at (core_at (view pass.old).seen)) successor.serial) [] }
    ensures calm { StaysCalm (view pass.old) (view pass.new) }
    ensures checked { (view pass.new).checked ≡ (view pass.old).checked }
    ensures history { IsHistory (view pass.new).seen }
{
    let serial = successor.serial;
    let begins = note_publish(gate, turn, pass, successor);
    stop_superseded(gate, turn, pass, serial);
    gate.settle_step(turn, pass, serial, begins);
}

// Supersedes the serial by the Publish of the pass's draft, publishes this, and says how many requests began under the serial.
fn note_publish<M: ModuleSet, F: Fixtures>(
    gate: &Gate<Board<M, F>>,
    turn: &mut Turn<Board<M, F>>,
    pass: &mut Pass<Board<M, F>>,
    successor: Successor<M>,
) -> u64
    requires turn { InTurn (Stood F.calls F.faults M.plan M.change) gate.now turn.old pass.old }
    requires follows { MayFollow M.change (view pass.old) successor }
    ensures turn { InTurn (Stood F.calls F.faults M.plan M.change) gate.now turn.new pass.new }
    ensures goes { GoesOn (view pass.old) (view pass.new) (Publish successor.draft.left.number (successor.serial + 1) successor.serial (change_of successor.origin) ∷ []) }
    ensures ticket { (view pass.new).ticket ≡ Some successor.serial }
    ensures unsettled { (view pass.new).unsettled ≡ Some (record { serial = successor.serial; begins = result }) }
    ensures few { result < SERIAL_STEP }
{
    let Successor {
        draft,
        serial,
        origin,
    } = successor;
    let drafted = draft.number();
    let asked = Snapshot::of(&origin);
    let begins = gate.publish_step::<(u64, u32, Snapshot<Origin>), NamesPublish>(
        turn,
        pass,
        serial,
        &(drafted, serial, asked),
    );
    turn.value.publish(draft, serial, origin);
    begins
}
