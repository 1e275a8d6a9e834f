//! What is done for a request that has begun, by who answers at its address.
ghost use Rattle.std.specs.Prelude.{◌≡◌, Some, true, false, cond};
ghost use Rattle.cd_legal.specs.Serials.{is_halted};
ghost use Rattle.cd_gate.specs.Passes.{view};
ghost use Rattle.cd_module_set.specs.Acts.{conf_acts};
ghost use Rattle.cd_module_set.specs.declared.target.Target.TheVariants.{Admin};
ghost use Rattle.cd_life.specs.Shares.{compiled_in, conf_in};
ghost use Rattle.cd_serve.specs.declared.how.How.TheVariants as how;
ghost use Rattle.cd_serve.specs.Episodes.{Outcome};
ghost use Rattle.cd_serve.specs.Requests.{ActedQuietly, HasActed, KeepsConnection, MayAct, PublishedNothing, is_fault, is_fault_in, outcome_of};

use crate::how::How;
use crate::replying::{reply_by, reply_with};
use crate::responding::respond;
use crate::task::Task;
use cd_admin::{Administered, Decision, decide};
use cd_gate::Pass;
use cd_hall::Ticket;
use cd_life::Board;
use cd_module_set::{ModuleSet, Responder, Target};
use cd_outside::{Address, Fixtures, Lane};
use cd_text::NoMemory;
use cd_wire::Request;
use std::alloc::Global;
use std::sync::Wait;

impl<'t, 'm, R: Wait, M: Administered, F: Fixtures> Task<'t, 'm, R, M, F> {
    /// Does what the configuration of the ticket says for the request. None where it is to be decided again, since another pass was
    /// first. The answer of an app is written in place of what the vector holds. Notes where that configuration is superseded.
    pub(crate) fn act<L: Lane>(
        &self,
        ticket: &Ticket<M>,
        pass: &mut Pass<Board<M, F>>,
        lane: &mut L,
        out: &mut Vec<u8>,
        superseded: &mut bool,
    ) -> Option<How>
        requires may { MayAct self.now.means.now.hall.now pass.old ticket.now (L.busy lane.old) }
        ensures acted { HasActed (record { acts = M.acts; plan = M.plan }) self.now.means.now.hall.now ticket.now self.now.means.now.at.now self.now.request.now result pass.old pass.new (L.past lane.old) (L.past lane.new) }
        ensures since { L.since lane.new ≡ L.since lane.old }
        ensures lane { KeepsConnection (is_fault_in result ≡ true) (L.busy lane.new) (L.faults lane.old) (L.faults lane.new) }
        ensures halted { result ≡ Some how.Halted → is_halted (conf_in ticket.now.share) ≡ true }
        ensures noted { superseded.new ≡ false → PublishedNothing (view pass.old) (view pass.new) }
    {
        let at = self.means.at;
        let responder = M::target(ticket.compiled(), at);
        match responder.target {
            Target::Admin => self.act_by_admin(ticket, pass, lane, superseded),
            Target::Nobody | Target::App => {
                let alloc = self.means.alloc;
                let request = self.request;
                Some(answer_if_app(alloc, ticket, lane, out, at, responder, request))
            }
        }
    }

    // The admin API answers, or makes a change first.
    fn act_by_admin<L: Lane>(
        &self,
        ticket: &Ticket<M>,
        pass: &mut Pass<Board<M, F>>,
        lane: &mut L,
        superseded: &mut bool,
    ) -> Option<How>
        requires may { MayAct self.now.means.now.hall.now pass.old ticket.now (L.busy lane.old) }
        requires admin { (conf_acts M.acts (conf_in ticket.now.share)).target self.now.means.now.at.now ≡ Admin }
        ensures acted { HasActed (record { acts = M.acts; plan = M.plan }) self.now.means.now.hall.now ticket.now self.now.means.now.at.now self.now.request.now result pass.old pass.new (L.past lane.old) (L.past lane.new) }
        ensures since { L.since lane.new ≡ L.since lane.old }
        ensures lane { KeepsConnection (is_fault_in result ≡ true) (L.busy lane.new) (L.faults lane.old) (L.faults lane.new) }
        ensures running { ¬ (result ≡ Some how.Halted) }
        ensures noted { superseded.new ≡ false → PublishedNothing (view pass.old) (view pass.new) }
    {
        let alloc = self.means.alloc;
        match decide::<M>(alloc, ticket.tree(), self.request) {
            Ok(Decision::Reply(answer)) => Some(reply_with(alloc, lane, self.request, &answer)),
            Ok(Decision::Replace(loaded)) => self.replace(pass, ticket, lane, loaded, superseded),
            Ok(Decision::Halt) => self.halt(pass, ticket, lane, superseded),
            Err(NoMemory) => Some(How::NoMemory),
        }
    }
}

// Nobody answers, perhaps since the host has halted.
fn unanswered<M: ModuleSet>(ticket: &Ticket<M>) -> How
    ensures outcome { outcome_of result ≡ Some (cond (is_halted (conf_in ticket.now.share)) Outcome.halted Outcome.dropped) }
    ensures fault { is_fault result ≡ false }
    ensures halted { result ≡ how.Halted → is_halted (conf_in ticket.now.share) ≡ true }
{
    if ticket.halted() {
        How::Halted
    } else {
        How::Dropped
    }
}

// An app answers, or nobody does.
fn answer_if_app<M: ModuleSet, L: Lane>(
    alloc: Global,
    ticket: &Ticket<M>,
    lane: &mut L,
    out: &mut Vec<u8>,
    at: &Address,
    responder: Responder,
    request: &Request,
) -> How
    requires busy { L.busy lane.old ≡ true }
    requires others { ¬ ((conf_acts M.acts (conf_in ticket.now.share)).target at.now ≡ Admin) }
    requires responds { M.responds (compiled_in ticket.now.share) at.now responder }
    ensures acted { ActedQuietly (record { acts = M.acts; plan = M.plan }) at.now request.now (conf_in ticket.now.share) ticket.now.serial result (L.past lane.old) (L.past lane.new) }
    ensures since { L.since lane.new ≡ L.since lane.old }
    ensures lane { KeepsConnection (is_fault result ≡ true) (L.busy lane.new) (L.faults lane.old) (L.faults lane.new) }
    ensures halted { result ≡ how.Halted → is_halted (conf_in ticket.now.share) ≡ true }
{
    match respond(alloc, ticket, at, responder, request) {
        Ok(Some(response)) => reply_by(
            alloc,
            lane,
            out,
            request,
            &response.answer,
            response.lines.as_slice(),
        ),
        Ok(None) => unanswered(ticket),
        Err(NoMemory) => How::NoMemory,
    }
}
