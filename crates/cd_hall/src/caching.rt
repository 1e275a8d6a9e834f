//! A worker that keeps the configuration of its last request begins and ends the next one without waiting and without memory.
ghost use Rattle.std.specs.Prelude.{◌≡◌, ◌≢◌, ◌≤◌, ◌&&◌, ◌==◌, ◌++◌, ◌∷◌, [], Bool, List, Some, None, IfOk, IfErr};
ghost use Rattle.cd_legal.specs.declared.entry.Entry.TheVariants.{Finish};
ghost use Rattle.cd_legal.specs.declared.entry.Signed.{Signed};
ghost use Rattle.cd_legal.specs.declared.limits.TheConstants.{MAX_BEGINS};
ghost use Rattle.cd_legal.specs.Legal.{state_at};
ghost use Rattle.cd_legal.specs.State.{ticket_of};
ghost use Rattle.cd_gate.specs.Counts.{begins_in};
ghost use Rattle.cd_gate.specs.Passes.{view};
ghost use Rattle.cd_gate.specs.Steps.{worn};
ghost use Rattle.cd_gate.specs.Tables.{Found};
ghost use Rattle.cd_hall.specs.Caches.{IsCacheOf, IfReady, IfStale, IfWorn, cached};
ghost use Rattle.cd_hall.specs.Calls.{IsPassOf, duties_in};
ghost use Rattle.cd_hall.specs.Dues.{DueThen, DueAtEnd, MayRetireAll};
ghost use Rattle.cd_hall.specs.Requests.{BegunNow};
ghost use Rattle.cd_hall.specs.Tickets.{HasConfiguration, IsTicketOf};
ghost use Rattle.cd_hall.specs.Turned.{Turned, Makes};

use crate::cache::{Cache, Hold, Now};
use crate::duty::Duty;
use crate::faults::NoFetch;
use crate::hall::{Hall, Ticket};
use crate::requests::begin_request;
use crate::turns::{leave_turn, take_turn};
use cd_gate::Pass;
use cd_life::Board;
use cd_module_set::ModuleSet;
use cd_outside::Fixtures;
use std::sync::Wait;

// Out of memory for a share. `halted` says whether the serial is that of the halt.
struct NoShare {
    halted: bool,
}

impl<M: ModuleSet, F: Fixtures> Hall<M, F> {
    /// Begins a request of the pass, which has none, under the current configuration. It waits for nobody, takes no memory, and
    /// shares nothing.
    ///
    /// It is `Ready` exactly where the cache has the configuration of the serial under which the request began, and `Stale` where it
    /// has another or none. The ticket that comes with `Ready` is the one that the cache had. `Worn` comes exactly where 2^39 requests
    /// or more had begun under the current serial when the pass looked; nothing is added then.
    pub fn begin_now(&self, pass: &mut Pass<Board<M, F>>, cache: &mut Cache<M>) -> Now<M>
        requires pass { IsPassOf self.now pass.old }
        requires free { (view pass.old).ticket ≡ None }
        requires cache { IsCacheOf (view pass.old) cache.old }
        ensures pass { IsPassOf self.now pass.new }
        ensures ready { IfReady result (λ ticket. (log : List Signed) × BegunNow (view pass.old) (view pass.new) ticket.serial log × (cached cache.old ≡ Some ticket.serial) × (cache.new.ticket ≡ None) × IsTicketOf (view pass.new) ticket) }
        ensures taken { IfReady result (λ ticket. cache.old.ticket ≡ Some ticket) }
        ensures stale { IfStale result (λ hold. (log : List Signed) × BegunNow (view pass.old) (view pass.new) hold.serial log × (cached cache.old ≢ Some hold.serial) × (cache.new ≡ cache.old)) }
        ensures hold { IfStale result (λ hold. (view pass.new).ticket ≡ Some hold.serial) }
        ensures worn { IfWorn result ((log : List Signed) × Found (view pass.old) log × (MAX_BEGINS ≤ begins_in log (state_at log).serial) × (view pass.new ≡ worn (view pass.old) log) × (cache.new ≡ cache.old)) }
        ensures cache { IsCacheOf (view pass.new) cache.new }
        ensures duties { (view pass.new).duties ≡ (view pass.old).duties }
    {
        let Some(serial) = begin_request(&self.gate, pass) else {
            return Now::Worn;
        };
        match cache.take_at(serial) {
            Some(ticket) => Now::Ready(ticket),
            None => Now::Stale(Hold { serial }),
        }
    }

    /// Shares the configuration under which the request of the pass began. What the cache had is given up first. It waits for the
    /// turn, and adds no entry.
    ///
    /// # Errors
    ///
    /// Out of memory. The request has ended then, as by `finish`, with the duty that comes with its end.
    pub fn fetch<R: Wait>(
        &self,
        rt: &R,
        hold: Hold,
        cache: &mut Cache<M>,
        pass: &mut Pass<Board<M, F>>,
    ) -> Result<Ticket<M>, NoFetch>
        requires pass { IsPassOf self.now pass.old }
        requires hold { (view pass.old).ticket ≡ Some hold.serial }
        ensures pass { IsPassOf self.now pass.new }
        ensures makes { IfOk result (λ ticket. Makes (view pass.old) (view pass.new) (λ s. [])) }
        ensures ticket { IfOk result (λ ticket. (ticket.serial ≡ hold.serial) × IsTicketOf (view pass.new) ticket) }
        ensures same_duties { IfOk result (λ ticket. (view pass.new).duties ≡ (view pass.old).duties) }
        ensures finishes { IfErr result (λ none. (found : List Signed) × Turned (view pass.old) (view pass.new) found (Finish (view pass.old).number ∷ []) × (ticket_of (view pass.old).number (state_at found).tickets ≡ Some hold.serial)) }
        ensures due { IfErr result (λ none. (found : List Signed) → Turned (view pass.old) (view pass.new) found (Finish (view pass.old).number ∷ []) → DueThen (state_at found) hold.serial (duties_in none.duty)) }
        ensures settled { IfErr result (λ none. (settled : Bool) × ((found : List Signed) → Turned (view pass.old) (view pass.new) found (Finish (view pass.old).number ∷ []) → DueAtEnd (state_at found) hold.serial settled (duties_in none.duty))) }
        ensures may { IfErr result (λ none. MayRetireAll (state_at (view pass.new).seen) (duties_in none.duty)) }
        ensures duties { IfErr result (λ none. (view pass.new).duties ≡ duties_in none.duty ++ (view pass.old).duties) }
        ensures cache { cache.new.ticket ≡ None }
    {
        cache.put(None);
        let Hold { serial } = hold;
        match self.ticket_at(rt, pass, serial) {
            Ok(ticket) => Ok(ticket),
            Err(NoShare { halted }) => {
                let duty = self.end_at(serial, halted, pass);
                Err(NoFetch { duty })
            }
        }
    }

    // Shares, in a turn of its own, the configuration of the serial under which the pass has a request.
    fn ticket_at<R: Wait>(
        &self,
        rt: &R,
        pass: &mut Pass<Board<M, F>>,
        serial: u32,
    ) -> Result<Ticket<M>, NoShare>
        requires pass { IsPassOf self.now pass.old }
        requires running { (view pass.old).ticket ≡ Some serial }
        ensures pass { IsPassOf self.now pass.new }
        ensures makes { Makes (view pass.old) (view pass.new) (λ s. []) }
        ensures same { view pass.new ≡ record (view pass.old) { seen = (view pass.new).seen } }
        ensures ticket { IfOk result (λ ticket. (ticket.serial ≡ serial) × HasConfiguration (view pass.new) ticket) }
        ensures halted { IfErr result (λ none. none.halted ≡ ((state_at (view pass.new).seen).halted && (serial == (state_at (view pass.new).seen).serial))) }
    {
        let turn = take_turn(rt, &self.gate, pass);
        let halted = is_halt(turn.value.halted(), turn.value.serial(), serial);
        let shared = turn.value.share(serial);
        leave_turn(&self.gate, turn, pass);
        match shared {
            Ok(share) => Ok(Ticket { serial, share }),
            Err(_) => Err(NoShare { halted }),
        }
    }

    /// Ends the request, as `finish` does, by one atomic step, which waits for nobody, and takes no memory. The cache has its
    /// configuration then, and gives up what it had.
    pub fn finish_now(
        &self,
        ticket: Ticket<M>,
        cache: &mut Cache<M>,
        pass: &mut Pass<Board<M, F>>,
    ) -> Option<Duty>
        requires pass { IsPassOf self.now pass.old }
        requires ticket { IsTicketOf (view pass.old) ticket }
        ensures pass { IsPassOf self.now pass.new }
        ensures finishes { (found : List Signed) × Turned (view pass.old) (view pass.new) found (Finish (view pass.old).number ∷ []) × (ticket_of (view pass.old).number (state_at found).tickets ≡ Some ticket.serial) }
        ensures due { (found : List Signed) → Turned (view pass.old) (view pass.new) found (Finish (view pass.old).number ∷ []) → DueThen (state_at found) ticket.serial (duties_in result) }
        ensures settled { (settled : Bool) × ((found : List Signed) → Turned (view pass.old) (view pass.new) found (Finish (view pass.old).number ∷ []) → DueAtEnd (state_at found) ticket.serial settled (duties_in result)) }
        ensures may { MayRetireAll (state_at (view pass.new).seen) (duties_in result) }
        ensures duties { (view pass.new).duties ≡ duties_in result ++ (view pass.old).duties }
        ensures kept { cache.new.ticket ≡ Some ticket }
        ensures cache { IsCacheOf (view pass.new) cache.new }
    {
        let halted = ticket.halted();
        let serial = ticket.serial;
        let duty = self.end_at(serial, halted, pass);
        cache.put(Some(ticket));
        duty
    }
}

// Whether the serial is that of the halt, by whether the host has halted and which serial is current.
fn is_halt(halted: bool, current: u32, serial: u32) -> bool
    ensures { result ≡ (halted && (serial == current)) }
{
    halted && serial == current
}
