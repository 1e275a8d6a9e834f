//! Requests begin and end.
ghost use Rattle.std.specs.Prelude.{◌≡◌, ◌≤◌, ◌&&◌, ◌==◌, ◌++◌, ◌∷◌, [], Bool, List, Some, None, Err, IfSome, IfOk, OnErr, cond, true, false};
ghost use Rattle.cd_legal.specs.declared.entry.Entry.TheVariants.{Begin, Finish};
ghost use Rattle.cd_legal.specs.declared.entry.Signed.{Signed};
ghost use Rattle.cd_legal.specs.declared.limits.TheConstants.{MAX_BEGINS};
ghost use Rattle.cd_legal.specs.Begins.{begins_now};
ghost use Rattle.cd_legal.specs.Entry.{entries};
ghost use Rattle.cd_legal.specs.Legal.{state_at, may_retire};
ghost use Rattle.cd_legal.specs.Placed.{Placed};
ghost use Rattle.cd_legal.specs.State.{ticket_of};
ghost use Rattle.cd_legal.specs.Whole.{nothing_left};
ghost use Rattle.cd_gate.specs.Counts.{begins_in};
ghost use Rattle.cd_gate.specs.Duties.{more_due};
ghost use Rattle.cd_gate.specs.Passes.{view, IsIdleOf, IsPass, Stays};
ghost use Rattle.cd_gate.specs.Steps.{worn};
ghost use Rattle.cd_gate.specs.Tables.{Found, FoundInTurn};
ghost use Rattle.cd_life.specs.Standing.{Stood};
ghost use Rattle.cd_hall.specs.declared.faults.BeginFault.TheVariants as fault;
ghost use Rattle.cd_hall.specs.Calls.{IsPassOf, StaysCalm, duties_in};
ghost use Rattle.cd_hall.specs.Dues.{DueThen, DueAtEnd, MayRetireAll};
ghost use Rattle.cd_hall.specs.Requests.{BegunNow, HasLooked};
ghost use Rattle.cd_hall.specs.Tickets.{IsTicketOf, HasBegun};
ghost use Rattle.cd_hall.specs.Turned.{Turned, Makes};
ghost use Rattle.cd_hall.specs.Turns.{InTurn};

use crate::duty::Duty;
use crate::faults::BeginFault;
use crate::hall::{Hall, Ticket};
use crate::turns::{leave_turn, take_turn};
use cd_gate::{Gate, Pass, Turn};
use cd_legal::Stands;
use cd_life::Board;
use cd_module_set::ModuleSet;
use cd_outside::Fixtures;
use std::sync::Wait;

impl<M: ModuleSet, F: Fixtures> Hall<M, F> {
    /// Begins a request of the pass, which has none, under the current configuration.
    ///
    /// # Errors
    ///
    /// `Worn` exactly where 2^39 requests or more had begun under the current serial when the pass looked, and `NoMemory`. Nothing is
    /// added after both.
    pub fn begin<R: Wait>(
        &self,
        rt: &R,
        pass: &mut Pass<Board<M, F>>,
    ) -> Result<Ticket<M>, BeginFault>
        requires pass { IsPassOf self.now pass.old }
        requires free { (view pass.old).ticket ≡ None }
        ensures pass { IsPassOf self.now pass.new }
        ensures begins { IfOk result (λ ticket. (found : List Signed) × Turned (view pass.old) (view pass.new) found (Begin (view pass.old).number ticket.serial ∷ []) × (ticket.serial ≡ (state_at found).serial)) }
        ensures ticket { IfOk result (λ ticket. IsTicketOf (view pass.new) ticket) }
        ensures begun { IfOk result (λ ticket. (begin : Placed) × HasBegun (view pass.old) (view pass.new) ticket begin) }
        ensures err { OnErr result (Makes (view pass.old) (view pass.new) (λ s. [])) }
        ensures worn { result ≡ Err fault.Worn → MAX_BEGINS ≤ begins_now (entries (view pass.new).seen) }
        ensures duties { (view pass.new).duties ≡ (view pass.old).duties }
    {
        let turn = take_turn(rt, &self.gate, pass);
        let begun = self.ticket_in_turn(&turn, pass);
        leave_turn(&self.gate, turn, pass);
        begun
    }

    // Shares the current configuration, and begins a request under it.
    fn ticket_in_turn(
        &self,
        turn: &Turn<Board<M, F>>,
        pass: &mut Pass<Board<M, F>>,
    ) -> Result<Ticket<M>, BeginFault>
        requires turn { InTurn (Stood F.calls F.faults M.plan M.change) self.now.gate turn.now pass.old }
        requires free { (view pass.old).ticket ≡ None }
        requires left { nothing_left (state_at (view pass.old).seen) ≡ true }
        ensures turn { InTurn (Stood F.calls F.faults M.plan M.change) self.now.gate turn.now pass.new }
        ensures begun { IfOk result (λ ticket. (log : List Signed) × BegunNow (view pass.old) (view pass.new) ticket.serial log) }
        ensures ticket { IfOk result (λ ticket. IsTicketOf (view pass.new) ticket) }
        ensures err { OnErr result (HasLooked (view pass.old) (view pass.new)) }
        ensures worn { result ≡ Err fault.Worn → MAX_BEGINS ≤ begins_now (entries (view pass.new).seen) }
        ensures calm { StaysCalm (view pass.old) (view pass.new) }
        ensures unchecked { (view pass.old).checked ≡ false → (view pass.new).checked ≡ false }
    {
        let serial = turn.value.serial();
        let Ok(share) = turn.value.share(serial) else {
            return Err(BeginFault::NoMemory);
        };
        match begin_in_turn(&self.gate, turn, pass) {
            Some(serial) => Ok(Ticket { serial, share }),
            None => {
                drop(share);
                Err(BeginFault::Worn)
            }
        }
    }

    /// Ends the request, by one atomic step, which waits for nobody. The duty of its serial comes exactly where this is superseded
    /// and settled, and no other request runs under it. A serial that the halt has superseded may not be settled yet: then no duty
    /// comes here. Where it comes the serial may be retired: its apps are stopped, and no request runs under it.
    pub fn finish(&self, ticket: Ticket<M>, pass: &mut Pass<Board<M, F>>) -> Option<Duty>
        requires pass { IsPassOf self.now pass.old }
        requires ticket { IsTicketOf (view pass.old) ticket }
        ensures pass { IsPassOf self.now pass.new }
        ensures finishes { (found : List Signed) × Turned (view pass.old) (view pass.new) found (Finish (view pass.old).number ∷ []) × (ticket_of (view pass.old).number (state_at found).tickets ≡ Some ticket.serial) }
        ensures due { (found : List Signed) → Turned (view pass.old) (view pass.new) found (Finish (view pass.old).number ∷ []) → DueThen (state_at found) ticket.serial (duties_in result) }
        ensures settled { (settled : Bool) × ((found : List Signed) → Turned (view pass.old) (view pass.new) found (Finish (view pass.old).number ∷ []) → DueAtEnd (state_at found) ticket.serial settled (duties_in result)) }
        ensures may { MayRetireAll (state_at (view pass.new).seen) (duties_in result) }
        ensures duties { (view pass.new).duties ≡ duties_in result ++ (view pass.old).duties }
    {
        let halted = ticket.halted();
        let Ticket { serial, share } = ticket;
        drop(share);
        self.end_at(serial, halted, pass)
    }

    // Ends the request of the pass, which is at this serial. `halted` says whether that is the one of the halt.
    pub(crate) fn end_at(
        &self,
        serial: u32,
        halted: bool,
        pass: &mut Pass<Board<M, F>>,
    ) -> Option<Duty>
        requires pass { IsPassOf self.now pass.old }
        requires ticket { (view pass.old).ticket ≡ Some serial }
        requires halted { halted ≡ ((state_at (view pass.old).seen).halted && (serial == (state_at (view pass.old).seen).serial)) }
        ensures pass { IsPassOf self.now pass.new }
        ensures finishes { (found : List Signed) × Turned (view pass.old) (view pass.new) found (Finish (view pass.old).number ∷ []) × (ticket_of (view pass.old).number (state_at found).tickets ≡ Some serial) }
        ensures due { (found : List Signed) → Turned (view pass.old) (view pass.new) found (Finish (view pass.old).number ∷ []) → DueThen (state_at found) serial (duties_in result) }
        ensures settled { (settled : Bool) × ((found : List Signed) → Turned (view pass.old) (view pass.new) found (Finish (view pass.old).number ∷ []) → DueAtEnd (state_at found) serial settled (duties_in result)) }
        ensures may { MayRetireAll (state_at (view pass.new).seen) (duties_in result) }
        ensures duties { (view pass.new).duties ≡ duties_in result ++ (view pass.old).duties }
    {
        let due = end_request(&self.gate, pass, serial, halted);
        duty_of(serial, due)
    }
}

// The duty of the serial, where it is due.
pub(crate) fn duty_of(serial: u32, due: bool) -> Option<Duty>
    ensures { duties_in result ≡ cond due (serial ∷ []) [] }
{
    if due { Some(Duty { serial }) } else { None }
}

// Begins a request in the turn, under the serial of what is guarded. None where it finds no room for one.
pub(crate) fn begin_in_turn<T: Stands>(
    gate: &Gate<T>,
    turn: &Turn<T>,
    pass: &mut Pass<T>,
) -> Option<u32>
    requires turn { InTurn T.stands gate.now turn.now pass.old }
    requires free { (view pass.old).ticket ≡ None }
    ensures turn { InTurn T.stands gate.now turn.now pass.new }
    ensures begun { IfSome result (λ serial. (log : List Signed) × BegunNow (view pass.old) (view pass.new) serial log × FoundInTurn (view pass.old) log) }
    ensures worn { result ≡ None → (log : List Signed) × FoundInTurn (view pass.old) log × (MAX_BEGINS ≤ begins_in log (state_at log).serial) × (view pass.new ≡ worn (view pass.old) log) }
{
    let _ = turn;
    begin_request(gate, pass)
}

// Looks for room for a request, and begins it by one atomic step, in a turn or not. None where it finds no room.
pub(crate) fn begin_request<T: Stands>(gate: &Gate<T>, pass: &mut Pass<T>) -> Option<u32>
    requires pass { IsPass gate.now pass.old }
    requires free { (view pass.old).ticket ≡ None }
    ensures pass { Stays gate.now pass.old pass.new }
    ensures begun { IfSome result (λ serial. (log : List Signed) × BegunNow (view pass.old) (view pass.new) serial log) }
    ensures worn { result ≡ None → (log : List Signed) × Found (view pass.old) log × (MAX_BEGINS ≤ begins_in log (state_at log).serial) × (view pass.new ≡ worn (view pass.old) log) }
{
    if !gate.check(pass) {
        return None;
    }
    Some(gate.begin_step(pass))
}

// Ends the request of an idle pass, which is at this serial. True exactly where the serial is then a duty of the pass.
fn end_request<T: Stands>(gate: &Gate<T>, pass: &mut Pass<T>, serial: u32, halted: bool) -> bool
    requires pass { IsIdleOf gate.now pass.old }
    requires ticket { (view pass.old).ticket ≡ Some serial }
    requires halted { halted ≡ ((state_at (view pass.old).seen).halted && (serial == (state_at (view pass.old).seen).serial)) }
    ensures pass { IsIdleOf gate.now pass.new }
    ensures finishes { (found : List Signed) × Turned (view pass.old) (view pass.new) found (Finish (view pass.old).number ∷ []) × (ticket_of (view pass.old).number (state_at found).tickets ≡ Some serial) × DueThen (state_at found) serial (cond result (serial ∷ []) []) }
    ensures settled { (settled : Bool) × ((found : List Signed) → Turned (view pass.old) (view pass.new) found (Finish (view pass.old).number ∷ []) → DueAtEnd (state_at found) serial settled (cond result (serial ∷ []) [])) }
    ensures may { result ≡ true → may_retire (state_at (view pass.new).seen) serial ≡ true }
    ensures duties { (view pass.new).duties ≡ more_due result serial (view pass.old).duties }
{
    gate.finish_step(pass, serial, halted)
}
