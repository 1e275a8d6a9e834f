//! The turn is entered, entries are noted in it, and it is left.
ghost use Rattle.std.specs.Prelude.{◌≡◌, ◌+◌, ◌++◌, ◌∷◌, [], List, Some, None, true, IsTrue};
ghost use Rattle.cd_legal.specs.declared.entry.Signed.{Signed};
ghost use Rattle.cd_legal.specs.Entry.{signed};
ghost use Rattle.cd_legal.specs.Laws.{core_at};
ghost use Rattle.cd_legal.specs.Legal.{state_at};
ghost use Rattle.cd_legal.specs.Signing.{IsHistory};
ghost use Rattle.cd_legal.specs.Whole.{nothing_left};
ghost use Rattle.cd_gate.specs.declared.table.TheConstants.{BOARD_SLOT, WORD_COUNT, SLOT_COUNT};
ghost use Rattle.cd_gate.specs.Steps.{may_note, with_turn, without_turn, noted};
ghost use Rattle.cd_gate.specs.Tables.{Finds, FoundInTurn};
ghost use Rattle.cd_gate.specs.Passes.{view, IsIdleOf, HasTurnOf, opening_of};

use crate::gate::Gate;
use crate::pass::{Pass, Turn};
use crate::plays::{Acquire, Names, Note, Release, Says};
use crate::table::{BOARD_SLOT, HISTORY_WORD, Place, TURN_WORD, Top};
use cd_legal::Stands;
use std::marker::Brand;
use std::sync::Wait;
use std::thread;
use std::time::Duration;

// How often the turn is asked for before the thread sleeps in between: a turn is mostly short, but it may wait for a name server.
const MISSES_BEFORE_SLEEP: u32 = 200;

// Waits for the turn. The board is then in the slot, which the seat has.
fn wait_for_turn<T: Stands, R: Wait>(rt: &R, top: &Top<T>, seat: &mut Place<T>, turn: u64)
    requires table { (seat.old.table_id ≡ top.now.table_id) × (top.now.table_id.words ≡ WORD_COUNT) × (top.now.table_id.slots ≡ SLOT_COUNT) }
    requires idle { (seat.old.me.1 ≡ []) × (seat.old.me.0.live ≡ true) }
    requires turn { turn ≡ seat.old.me.0.number + 1 }
    ensures table { seat.new.table_id ≡ seat.old.table_id }
    ensures entered { (log : List Signed) × (b : T) × (seat.new.me ≡ (with_turn seat.old.me.0 log, (BOARD_SLOT, Some b) ∷ [])) × ((o : T) × (seat.old.me.0.opening ≡ Some o) × Finds T.stands o seat.old.me.0 log b) }
{
    let mut misses = 0;
    for _ in rt.forever() {
        let holder = top.compare_exchange::<Acquire>(seat, TURN_WORD, 0, turn);
        if holder == 0 {
            return;
        }
        if misses < MISSES_BEFORE_SLEEP {
            misses += 1;
            thread::yield_now();
        } else {
            sleep_while_held(rt, top, holder);
        }
    }
    unreachable!()
}

// Sleeps for a millisecond, unless the turn has another holder meanwhile.
fn sleep_while_held<T: Stands, R: Wait>(rt: &R, top: &Top<T>, holder: u64)
    requires { top.now.table_id.words ≡ WORD_COUNT }
{
    let holder = u32::try_from(holder).unwrap_or(0);
    top.park_timeout(rt, TURN_WORD, holder, Duration::from_millis(1));
}

impl<T: Stands> Gate<T> {
    /// Waits for the turn. The pass has then seen the whole history; the board stands for it without Begin and Finish.
    pub fn enter<R: Wait>(&self, rt: &R, pass: &mut Pass<T>) -> Turn<T>
        requires { IsIdleOf self.now pass.old }
        ensures pass { HasTurnOf self.now pass.new }
        ensures seen { (log : List Signed) × (view pass.new ≡ with_turn (view pass.old) log) × Finds T.stands (opening_of self.now) (view pass.old) log result.value }
    {
        let top = &self.table.shared;
        wait_for_turn(rt, top, &mut pass.seat, u64::from(pass.number) + 1);
        let value = top.exchange(&mut pass.seat, BOARD_SLOT, None).unwrap();
        Turn { value }
    }

    /// Adds the entry that was just made on the board.
    pub fn note<X, M: Names<X>>(&self, turn: &mut Turn<T>, pass: &mut Pass<T>, about: &X)
        requires pass { HasTurnOf self.now pass.old }
        requires may { IsTrue (may_note (view pass.old) (M.entry about.now)) }
        ensures pass { HasTurnOf self.now pass.new }
        ensures noted { (log : List Signed) × FoundInTurn (view pass.old) log × (view pass.new ≡ noted (view pass.old) log (M.entry about.now)) × IsHistory (log ++ signed (view pass.old).number (M.entry about.now) ∷ []) }
        ensures same { turn.new ≡ turn.old }
    {
        let _ = turn;
        self.note_said::<X, Brand>(pass, about);
    }

    fn note_said<X, E: Says>(&self, pass: &mut Pass<T>, about: &X)
        requires pass { HasTurnOf self.now pass.old }
        requires may { IsTrue (may_note (view pass.old) E.said) }
        ensures pass { HasTurnOf self.now pass.new }
        ensures noted { (log : List Signed) × FoundInTurn (view pass.old) log × (view pass.new ≡ noted (view pass.old) log E.said) × IsHistory (log ++ signed (view pass.old).number E.said ∷ []) }
    {
        let _ = about;
        self.table
            .shared
            .fetch_add::<Note<E>>(&mut pass.seat, HISTORY_WORD, 1);
    }

    /// Gives the turn back, with each superseded serial settled.
    pub fn leave(&self, turn: Turn<T>, pass: &mut Pass<T>)
        requires pass { HasTurnOf self.now pass.old }
        requires settled { (view pass.old).unsettled ≡ None }
        requires board { T.stands (opening_of self.now) turn.value (core_at (view pass.old).seen) }
        requires left { IsTrue (nothing_left (state_at (view pass.old).seen)) }
        ensures pass { IsIdleOf self.now pass.new }
        ensures seen { view pass.new ≡ without_turn (view pass.old) }
    {
        let Turn { value } = turn;
        let top = &self.table.shared;
        let emptied = top.exchange(&mut pass.seat, BOARD_SLOT, Some(value));
        let None = emptied else { unreachable!() };
        top.store::<Release>(&mut pass.seat, TURN_WORD, 0);
    }
}
