//! A serial is superseded: the balance of the coming one is made ready, the word of the serial is swapped, and the old balance is
//! settled. Each of these is one atomic step of the pass that has the turn.
ghost use Rattle.std.specs.Prelude.{◌≡◌, ◌+◌, ◌<◌, ◌≤◌, ◌++◌, ◌∷◌, ◌==◌, [], List, ℕ, Some, None, true, false, IsTrue};
ghost use Rattle.cd_legal.specs.declared.entry.Change.{Change};
ghost use Rattle.cd_legal.specs.declared.entry.Entry.TheVariants.{Publish, Halt};
ghost use Rattle.cd_legal.specs.declared.entry.Signed.{Signed};
ghost use Rattle.cd_legal.specs.declared.limits.TheConstants.{LAST_SERIAL, MAX_UNRETIRED};
ghost use Rattle.cd_legal.specs.Entry.{signed};
ghost use Rattle.cd_legal.specs.Legal.{allowed, state_at};
ghost use Rattle.cd_legal.specs.Signing.{may_sign, IsHistory};
ghost use Rattle.cd_legal.specs.State.{has_number, open_at, apps_stopped};
ghost use Rattle.cd_gate.specs.declared.table.TheConstants.{SERIAL_STEP, WORD_COUNT, SLOT_COUNT};
ghost use Rattle.cd_gate.specs.Counts.{begins_in};
ghost use Rattle.cd_gate.specs.Passes.{view, HasTurnOf};
ghost use Rattle.cd_gate.specs.Steps.{readied, superseded, settled};
ghost use Rattle.cd_gate.specs.Tables.{FoundInTurn};
ghost use Rattle.cd_gate.specs.Words.{owed};

use crate::gate::Gate;
use crate::pass::{Pass, Turn};
use crate::plays::{MakeReady, Names, Says, Settle, SupersedeBy, SupersedeForGood};
use crate::table::{BALANCE_WORD, FULL_BALANCE, Place, SERIAL_STEP, SERIAL_WORD, Top};
use cd_legal::{MAX_UNRETIRED, Stands};
use std::marker::Brand;

// Makes the balance of the serial after the current one ready. The serial that last used it is retired.
fn make_ready<T: Stands>(top: &Top<T>, seat: &mut Place<T>, serial: u32)
    requires table { (seat.old.table_id ≡ top.now.table_id) × (top.now.table_id.words ≡ WORD_COUNT) × (top.now.table_id.slots ≡ SLOT_COUNT) }
    requires turn { (seat.old.me.0.turn ≡ true) × (seat.old.me.0.unsettled ≡ None) }
    requires current { (serial ≡ (state_at seat.old.me.0.seen).serial) × ((state_at seat.old.me.0.seen).halted ≡ false) × (serial < LAST_SERIAL) }
    requires retired { (k : ℕ) → k + MAX_UNRETIRED ≡ serial + 1 → has_number k (state_at seat.old.me.0.seen).retired ≡ true }
    ensures table { seat.new.table_id ≡ seat.old.table_id }
    ensures ready { seat.new.me ≡ (readied seat.old.me.0, seat.old.me.1) }
{
    let word = BALANCE_WORD + 1 + ((serial + 1) % MAX_UNRETIRED) as usize;
    top.store::<MakeReady>(seat, word, FULL_BALANCE);
}

// Supersedes the serial by the Publish that the caller names, once the balance of the coming one is ready.
fn supersede_by<T: Stands, X, E: Says>(
    top: &Top<T>,
    seat: &mut Place<T>,
    serial: u32,
    about: &X,
) -> u64
    requires table { (seat.old.table_id ≡ top.now.table_id) × (top.now.table_id.words ≡ WORD_COUNT) × (top.now.table_id.slots ≡ SLOT_COUNT) }
    requires turn { (seat.old.me.0.turn ≡ true) × (seat.old.me.0.unsettled ≡ None) × (seat.old.me.0.ready ≡ true) × (seat.old.me.0.ticket ≡ Some serial) }
    requires current { (serial ≡ (state_at seat.old.me.0.seen).serial) × (serial < LAST_SERIAL) }
    requires entry { (draft : ℕ) × (next : ℕ) × (change : Change) × (E.said ≡ Publish draft next serial change) }
    requires may { (allowed (state_at seat.old.me.0.seen) E.said ≡ true) × (may_sign seat.old.me.0.number (owed seat.old.me.0) E.said ≡ true) }
    ensures table { seat.new.table_id ≡ seat.old.table_id }
    ensures publishes { (log : List Signed) × FoundInTurn seat.old.me.0 log × (result ≡ begins_in log serial) × (seat.new.me ≡ (superseded seat.old.me.0 log E.said serial (begins_in log serial), seat.old.me.1)) × IsHistory (log ++ signed seat.old.me.0.number E.said ∷ []) }
    ensures few { result < SERIAL_STEP }
{
    let _ = about;
    let word = (serial as u64 + 1) * SERIAL_STEP;
    top.swap::<SupersedeBy<E>>(seat, SERIAL_WORD, word) % SERIAL_STEP
}

impl<T: Stands> Gate<T> {
    /// Supersedes the current serial, at which the pass has its request, by the Publish that the caller names; and gives how many
    /// requests began under it. The serial that last used the balance of the coming one is retired, if there is one. The board makes
    /// the Publish after it.
    pub fn publish_step<X, M: Names<X>>(
        &self,
        turn: &mut Turn<T>,
        pass: &mut Pass<T>,
        serial: u32,
        about: &X,
    ) -> u64
        requires pass { HasTurnOf self.now pass.old }
        requires settled { (view pass.old).unsettled ≡ None }
        requires current { (serial ≡ (state_at (view pass.old).seen).serial) × (serial < LAST_SERIAL) }
        requires runs { (state_at (view pass.old).seen).halted ≡ false }
        requires retired { (k : ℕ) → k + MAX_UNRETIRED ≡ serial + 1 → has_number k (state_at (view pass.old).seen).retired ≡ true }
        requires ticket { (view pass.old).ticket ≡ Some serial }
        requires entry { (draft : ℕ) × (next : ℕ) × (change : Change) × (M.entry about.now ≡ Publish draft next serial change) }
        requires may { (allowed (state_at (view pass.old).seen) (M.entry about.now) ≡ true) × (may_sign (view pass.old).number (owed (view pass.old)) (M.entry about.now) ≡ true) }
        ensures pass { HasTurnOf self.now pass.new }
        ensures same { turn.new ≡ turn.old }
        ensures publishes { (log : List Signed) × FoundInTurn (view pass.old) log × (result ≡ begins_in log serial) × (view pass.new ≡ superseded (view pass.old) log (M.entry about.now) serial (begins_in log serial)) × IsHistory (log ++ signed (view pass.old).number (M.entry about.now) ∷ []) }
        ensures few { result < SERIAL_STEP }
    {
        let _ = turn;
        let top = &self.table.shared;
        make_ready(top, &mut pass.seat, serial);
        supersede_by::<T, X, Brand>(top, &mut pass.seat, serial, about)
    }

    /// Supersedes the current serial by the Halt, and gives how many requests began under it. The board makes the Halt after it.
    pub fn halt_step(&self, turn: &mut Turn<T>, pass: &mut Pass<T>, serial: u32) -> u64
        requires pass { HasTurnOf self.now pass.old }
        requires settled { (view pass.old).unsettled ≡ None }
        requires current { (serial ≡ (state_at (view pass.old).seen).serial) × (serial ≤ LAST_SERIAL) }
        requires runs { (state_at (view pass.old).seen).halted ≡ false }
        ensures pass { HasTurnOf self.now pass.new }
        ensures same { turn.new ≡ turn.old }
        ensures halts { (log : List Signed) × FoundInTurn (view pass.old) log × (result ≡ begins_in log serial) × (view pass.new ≡ superseded (view pass.old) log (Halt (serial + 1)) serial (begins_in log serial)) × IsHistory (log ++ signed (view pass.old).number (Halt (serial + 1)) ∷ []) }
        ensures few { result < SERIAL_STEP }
    {
        let _ = turn;
        let word = (serial as u64 + 1) * SERIAL_STEP;
        self.table
            .shared
            .swap::<SupersedeForGood>(&mut pass.seat, SERIAL_WORD, word)
            % SERIAL_STEP
    }

    /// Settles the serial that the pass has superseded, under which so many requests began, and whose apps are stopped. It says yes
    /// exactly where the serial is then due: where no request runs under it. Then it is a duty of the pass.
    pub fn settle_step(
        &self,
        turn: &mut Turn<T>,
        pass: &mut Pass<T>,
        serial: u32,
        begins: u64,
    ) -> bool
        requires pass { HasTurnOf self.now pass.old }
        requires unsettled { (view pass.old).unsettled ≡ Some (record { serial = serial; begins = begins }) }
        requires few { begins < SERIAL_STEP }
        requires stopped { apps_stopped (state_at (view pass.old).seen) serial ≡ true }
        ensures pass { HasTurnOf self.now pass.new }
        ensures same { turn.new ≡ turn.old }
        ensures settles { (log : List Signed) × FoundInTurn (view pass.old) log × (result ≡ (open_at serial (state_at log).tickets == 0)) × (view pass.new ≡ settled (view pass.old) serial result) }
    {
        let _ = turn;
        let word = BALANCE_WORD + 1 + (serial % MAX_UNRETIRED) as usize;
        let taken = FULL_BALANCE - begins;
        self.table
            .shared
            .fetch_sub::<Settle>(&mut pass.seat, word, taken)
            == taken
    }
}
