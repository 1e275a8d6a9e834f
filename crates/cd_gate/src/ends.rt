// How a gate is made and closed.
ghost use Rattle.std.specs.Prelude.{◌≡◌, ◌<◌, ◌≤◌, ◌∷◌, [], length, IfOk, IfErr, Some};
ghost use Rattle.std.specs.Vec.{vec_capacity};
ghost use Rattle.cd_legal.specs.declared.limits.TheConstants.{MAX_SEATS};
ghost use Rattle.cd_gate.specs.Ends.{IsRowOf, AreFree, AreNew, Closes, Gathers};
ghost use Rattle.cd_gate.specs.Passes.{opening_of};
ghost use Rattle.cd_gate.specs.Tables.{first_words};

use crate::gate::Gate;
use crate::pass::Pass;
use crate::table::{
    BOARD_SLOT, FULL_BALANCE, HISTORY_WORD, SERIAL_WORD, SLOT_COUNT, TURN_WORD, WORD_COUNT,
};
use atomic_table::{Refused, Table};
use cd_legal::Stands;
use std::alloc::Global;
use std::snapshot::Snapshot;

/// There was no memory. The value comes back.
pub struct NoGate<T> {
    pub value: T,
}

// The words of a new table.
fn opening_words() -> [u64; WORD_COUNT]
    ensures { result ≡ first_words }
{
    let mut words = [FULL_BALANCE; WORD_COUNT];
    words[SERIAL_WORD] = 0;
    words[TURN_WORD] = 0;
    words[HISTORY_WORD] = 0;
    words
}

// The only slot's value.
fn only<T>(mut slots: Vec<Option<T>>) -> T
    requires { (v : T) × (slots.items ≡ Some v ∷ []) }
    ensures { slots.items ≡ Some result ∷ [] }
{
    let last = slots.pop();
    slots.destroy_empty();
    last.unwrap().unwrap()
}

impl<T: Stands> Gate<T> {
    /// A gate over the board, and its passes. The pass at place i has the number i.
    pub fn new(alloc: Global, value: T, seats: u32) -> Result<(Gate<T>, Vec<Pass<T>>), NoGate<T>>
        requires seats { (0 < seats) × (seats ≤ MAX_SEATS) }
        requires value { T.stands value value [] }
        ensures gate { IfOk result (λ r. opening_of r.0 ≡ value) }
        ensures passes { IfOk result (λ r. IsRowOf r.0 r.1.items × AreNew r.1.items × (length r.1.items ≡ seats)) }
        ensures err { IfErr result (λ r. r.value ≡ value) }
    {
        let Ok(mut passes) = Vec::with_capacity(alloc, seats as usize) else {
            return Err(NoGate { value });
        };
        let Ok(mut slots) = Vec::with_capacity(alloc, SLOT_COUNT) else {
            passes.destroy_empty();
            return Err(NoGate { value });
        };
        let opening = Snapshot::of(&value);
        slots.push_reserved(Some(value));
        match Table::new(alloc, &opening_words(), slots, &opening) {
            Ok((table, seat)) => {
                let gate = Gate { table };
                passes.push_reserved(Pass { number: 0, seat });
                gate.fill(&mut passes, seats);
                Ok((gate, passes))
            }
            Err(Refused { slots }) => {
                passes.destroy_empty();
                Err(NoGate { value: only(slots) })
            }
        }
    }

    // Hands out the passes of the numbers from 1 on.
    fn fill(&self, passes: &mut Vec<Pass<T>>, seats: u32)
        requires seats { (0 < seats) × (seats ≤ MAX_SEATS) × (seats ≤ vec_capacity passes.old) }
        requires first { (length passes.old.items ≡ 1) × IsRowOf self.now passes.old.items × AreNew passes.old.items }
        ensures { (length passes.new.items ≡ seats) × IsRowOf self.now passes.new.items × AreNew passes.new.items }
    {
        for number in 1..seats {
            let other = self.hand_out(&mut passes[0], number);
            passes.push_reserved(other);
        }
    }

    // The pass of number 0, which has taken in all others.
    fn gather(&self, mut passes: Vec<Pass<T>>) -> Pass<T>
        requires row { IsRowOf self.now passes.items }
        requires free { AreFree passes.items }
        ensures { Gathers self.now.table.shared.table_id (opening_of self.now) passes.items result [] }
    {
        let mut first = passes.remove(0);
        while let Some(other) = passes.pop() {
            self.take_in(&mut first, other);
        }
        passes.destroy_empty();
        first
    }

    /// The board, which stands for one history that the passes have. It is theirs alone where they are all that were made.
    pub fn close(self, passes: Vec<Pass<T>>) -> T
        requires row { IsRowOf self passes.items }
        requires free { AreFree passes.items }
        ensures { Closes T.stands (opening_of self) passes.items result }
    {
        let Pass { number: _, seat } = self.gather(passes);
        let Gate { table } = self;
        let mut closed = table.close_with(seat);
        let held = closed.take(BOARD_SLOT);
        closed.free();
        held.unwrap()
    }
}
