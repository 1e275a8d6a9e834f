//! One request is served.
ghost use Rattle.std.specs.Prelude.{◌≡◌, ◌⊎◌, ◌≤◌, ℕ, Some, None, true, false};
ghost use Rattle.cd_outside.specs.Since.{CameWith};
ghost use Rattle.cd_legal.specs.declared.limits.TheConstants.{MAX_BEGINS};
ghost use Rattle.cd_legal.specs.Begins.{begins_now};
ghost use Rattle.cd_legal.specs.Entry.{entries};
ghost use Rattle.cd_legal.specs.Legal.{state_at};
ghost use Rattle.cd_legal.specs.Serials.{is_halted};
ghost use Rattle.cd_gate.specs.Passes.{view};
ghost use Rattle.cd_life.specs.Shares.{conf_in};
ghost use Rattle.cd_serve.specs.declared.how.How.TheVariants as how;
ghost use Rattle.cd_serve.specs.Guarding.{IsDeclined, IsNoneLater, RequestKeepsUp};
ghost use Rattle.cd_serve.specs.Requests.{HasActed, KeepsConnection, MayAct, MayServe, PublishedNothing, RequestServed, ServedOnce, is_fault_in};

use crate::beginning::begin;
use crate::concluding::conclude;
use crate::how::How;
use crate::task::Task;
use cd_admin::Administered;
use cd_gate::Pass;
use cd_hall::{Cache, Ticket};
use cd_life::Board;
use cd_outside::{Fixtures, Given, Lane};
use std::sync::Wait;

impl<'t, 'm, R: Wait, M: Administered, F: Fixtures> Task<'t, 'm, R, M, F> {
    /// Serves the request, which came on the connection that is there. The pass owes nothing, before and after.
    ///
    /// It begins, is answered under the configuration that is current then, and finishes; where another pass was first with a change,
    /// it does so again. It gets no answer where its connection had seen a later configuration before it came to the lane. What it made in the history, what was sent and what was logged belong together. The answer of an app is
    /// written in place of what the vector holds.
    pub(crate) fn serve_request<L: Lane>(
        &self,
        pass: &mut Pass<Board<M, F>>,
        cache: &mut Cache<M>,
        lane: &mut L,
        out: &mut Vec<u8>,
    ) -> How
        requires may { MayServe self.now.means.now.hall.now pass.old cache.old (L.busy lane.old) }
        ensures may { MayServe self.now.means.now.hall.now pass.new cache.new (L.busy lane.new) }
        ensures served { RequestServed (record { acts = M.acts; plan = M.plan }) self.now.means.now.at.now self.now.request.now result (view pass.old) (view pass.new) (L.past lane.old) (L.past lane.new) }
        ensures since { L.since lane.new ≡ L.since lane.old }
        ensures keeps_up { (since : ℕ) → CameWith (L.since lane.old) since → RequestKeepsUp since (Some result) (view pass.old) (view pass.new) (L.past lane.old) (L.past lane.new) }
        ensures lane { KeepsConnection (is_fault_in (Some result) ≡ true) (L.busy lane.new) (L.faults lane.old) (L.faults lane.new) }
        ensures halted { result ≡ how.Halted → (state_at (view pass.new).seen).halted ≡ true }
        ensures worn { result ≡ how.Worn → MAX_BEGINS ≤ begins_now (entries (view pass.new).seen) }
    {
        for _ in self.means.rt.forever() {
            match self.serve_once(pass, cache, lane, out) {
                Some(how) => return how,
                None => {}
            }
        }
        unreachable!()
    }

    // None where it is to be decided again. Where it has published a configuration, the cache is empty then.
    fn serve_once<L: Lane>(
        &self,
        pass: &mut Pass<Board<M, F>>,
        cache: &mut Cache<M>,
        lane: &mut L,
        out: &mut Vec<u8>,
    ) -> Option<How>
        requires may { MayServe self.now.means.now.hall.now pass.old cache.old (L.busy lane.old) }
        ensures may { MayServe self.now.means.now.hall.now pass.new cache.new (L.busy lane.new) }
        ensures served { ServedOnce (record { acts = M.acts; plan = M.plan }) self.now.means.now.at.now self.now.request.now result (view pass.old) (view pass.new) (L.past lane.old) (L.past lane.new) }
        ensures since { L.since lane.new ≡ L.since lane.old }
        ensures keeps_up { (since : ℕ) → CameWith (L.since lane.old) since → RequestKeepsUp since result (view pass.old) (view pass.new) (L.past lane.old) (L.past lane.new) }
        ensures lane { KeepsConnection (is_fault_in result ≡ true) (L.busy lane.new) (L.faults lane.old) (L.faults lane.new) }
        ensures halted { result ≡ Some how.Halted → (state_at (view pass.new).seen).halted ≡ true }
        ensures worn { result ≡ Some how.Worn → MAX_BEGINS ≤ begins_now (entries (view pass.new).seen) }
        ensures let_go { PublishedNothing (view pass.old) (view pass.new) ⊎ (cache.new.ticket ≡ None) }
    {
        let ticket = match begin(self.means.rt, self.means.hall, pass, cache) {
            Ok(ticket) => ticket,
            Err(how) => return Some(how),
        };
        let mut superseded = false;
        let how = self.act_unless_older(&ticket, pass, lane, out, &mut superseded);
        conclude(
            self.means.rt,
            self.means.hall,
            ticket,
            pass,
            cache,
            superseded,
        );
        how
    }

    // Acts for the request, unless the lane knows that its connection has seen a later configuration than that of the ticket.
    fn act_unless_older<L: Lane>(
        &self,
        ticket: &Ticket<M>,
        pass: &mut Pass<Board<M, F>>,
        lane: &mut L,
        out: &mut Vec<u8>,
        superseded: &mut bool,
    ) -> Option<How>
        requires may { MayAct self.now.means.now.hall.now pass.old ticket.now (L.busy lane.old) }
        ensures acted { HasActed (record { acts = M.acts; plan = M.plan }) self.now.means.now.hall.now ticket.now self.now.means.now.at.now self.now.request.now result pass.old pass.new (L.past lane.old) (L.past lane.new) }
        ensures since { L.since lane.new ≡ L.since lane.old }
        ensures none_later { IsNoneLater (L.since lane.old) ticket.now.serial ⊎ IsDeclined result pass.old pass.new (L.past lane.old) (L.past lane.new) }
        ensures lane { KeepsConnection (is_fault_in result ≡ true) (L.busy lane.new) (L.faults lane.old) (L.faults lane.new) }
        ensures halted { result ≡ Some how.Halted → is_halted (conf_in ticket.now.share) ≡ true }
        ensures noted { superseded.new ≡ false → PublishedNothing (view pass.old) (view pass.new) }
    {
        match lane.seen(ticket.serial()) {
            Given::All => self.act(ticket, pass, lane, out, superseded),
            Given::Failed => Some(How::Failed),
        }
    }
}
