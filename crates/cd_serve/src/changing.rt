//! A change that the admin API decides on is made, and answered.
ghost use Rattle.std.specs.Prelude.{◌≡◌, [], Some, true, false};
ghost use Rattle.cd_admin.specs.Answers.{done};
ghost use Rattle.cd_admin.specs.Deciding.{replace as replaces, halt as halts};
ghost use Rattle.cd_gate.specs.Passes.{view};
ghost use Rattle.cd_life.specs.Shares.{conf_in};
ghost use Rattle.cd_serve.specs.declared.how.How.TheVariants as how;
ghost use Rattle.cd_serve.specs.Attempts.{Asks};
ghost use Rattle.cd_serve.specs.Faults.{fault_answer};
ghost use Rattle.cd_serve.specs.Meanings.{Decides};
ghost use Rattle.cd_serve.specs.Requests.{HasActed, IsReady, IsSent, KeepsConnection, MayAct, PublishedNothing, is_fault, is_fault_in};

use crate::answering::halted_answer;
use crate::attempting::{Attempt, attempt_change};
use crate::fault::ChangeFault;
use crate::halting::halt_host;
use crate::how::How;
use crate::keeping::{Acknowledgement, acknowledge, write_out};
use crate::replying::{reply_with, send};
use crate::sending::sent;
use crate::task::Task;
use cd_admin::{Administered, done};
use cd_gate::Pass;
use cd_hall::Ticket;
use cd_life::Board;
use cd_module_set::Loaded;
use cd_outside::{Fixtures, Lane};
use cd_text::NoMemory;
use cd_wire::{Answer, Request};
use std::alloc::Global;
use std::sync::Wait;

impl<'t, 'm, R: Wait, M: Administered, F: Fixtures> Task<'t, 'm, R, M, F> {
    /// Attempts to publish what the request asks for, and answers whether that was done. None where another change was first. The
    /// answer to a change that is made, and the text by which it is kept before that, are written out before it is made, so that only
    /// a lane that fails can hide the change. Notes where the configuration of the ticket is superseded.
    pub(crate) fn replace<L: Lane>(
        &self,
        pass: &mut Pass<Board<M, F>>,
        ticket: &Ticket<M>,
        lane: &mut L,
        loaded: Loaded<M>,
        superseded: &mut bool,
    ) -> Option<How>
        requires may { MayAct self.now.means.now.hall.now pass.old ticket.now (L.busy lane.old) }
        requires asks { Asks M.change (conf_in ticket.now.share) self.now.request.now loaded.tree }
        requires decides { Decides (record { acts = M.acts; plan = M.plan }) (conf_in ticket.now.share) self.now.means.now.at.now self.now.request.now (replaces loaded.tree) }
        ensures acted { HasActed (record { acts = M.acts; plan = M.plan }) self.now.means.now.hall.now ticket.now self.now.means.now.at.now self.now.request.now result pass.old pass.new (L.past lane.old) (L.past lane.new) }
        ensures since { L.since lane.new ≡ L.since lane.old }
        ensures lane { KeepsConnection (is_fault_in result ≡ true) (L.busy lane.new) (L.faults lane.old) (L.faults lane.new) }
        ensures running { ¬ (result ≡ Some how.Halted) }
        ensures noted { superseded.new ≡ false → PublishedNothing (view pass.old) (view pass.new) }
    {
        let alloc = self.means.alloc;
        let answer = done(alloc);
        match write_out(alloc, ticket, &loaded, self.request, &answer) {
            Ok(ready) => self.make_change(pass, ticket, lane, loaded, &ready, &answer, superseded),
            Err(NoMemory) => Some(How::NoMemory),
        }
    }

    // Attempts the change, with what acknowledges it once it is made.
    fn make_change<L: Lane>(
        &self,
        pass: &mut Pass<Board<M, F>>,
        ticket: &Ticket<M>,
        lane: &mut L,
        loaded: Loaded<M>,
        ready: &Acknowledgement,
        answer: &Answer<'_>,
        superseded: &mut bool,
    ) -> Option<How>
        requires may { MayAct self.now.means.now.hall.now pass.old ticket.now (L.busy lane.old) }
        requires asks { Asks M.change (conf_in ticket.now.share) self.now.request.now loaded.tree }
        requires decides { Decides (record { acts = M.acts; plan = M.plan }) (conf_in ticket.now.share) self.now.means.now.at.now self.now.request.now (replaces loaded.tree) }
        requires ready { IsReady ready.now ticket.now.serial loaded.tree self.now.request.now answer.now }
        requires answer { answer.now ≡ done }
        ensures acted { HasActed (record { acts = M.acts; plan = M.plan }) self.now.means.now.hall.now ticket.now self.now.means.now.at.now self.now.request.now result pass.old pass.new (L.past lane.old) (L.past lane.new) }
        ensures since { L.since lane.new ≡ L.since lane.old }
        ensures lane { KeepsConnection (is_fault_in result ≡ true) (L.busy lane.new) (L.faults lane.old) (L.faults lane.new) }
        ensures running { ¬ (result ≡ Some how.Halted) }
        ensures noted { superseded.new ≡ false → PublishedNothing (view pass.old) (view pass.new) }
    {
        let means = self.means;
        let request = self.request;
        match attempt_change(
            means.rt,
            means.alloc,
            means.hall,
            pass,
            ticket,
            loaded,
            request,
        ) {
            Attempt::Published => {
                *superseded = true;
                Some(acknowledge(means.rt, lane, ready, request, answer))
            }
            Attempt::Superseded => {
                *superseded = true;
                None
            }
            Attempt::Refused(fault) => Some(refuse(means.alloc, lane, request, &fault)),
            Attempt::Lacking => Some(How::NoMemory),
        }
    }

    /// Halts the host, and answers that, by bytes that are made before. None where another pass was first. Notes where the
    /// configuration of the ticket is superseded.
    pub(crate) fn halt<L: Lane>(
        &self,
        pass: &mut Pass<Board<M, F>>,
        ticket: &Ticket<M>,
        lane: &mut L,
        superseded: &mut bool,
    ) -> Option<How>
        requires may { MayAct self.now.means.now.hall.now pass.old ticket.now (L.busy lane.old) }
        requires decides { Decides (record { acts = M.acts; plan = M.plan }) (conf_in ticket.now.share) self.now.means.now.at.now self.now.request.now halts }
        ensures acted { HasActed (record { acts = M.acts; plan = M.plan }) self.now.means.now.hall.now ticket.now self.now.means.now.at.now self.now.request.now result pass.old pass.new (L.past lane.old) (L.past lane.new) }
        ensures since { L.since lane.new ≡ L.since lane.old }
        ensures lane { KeepsConnection (is_fault_in result ≡ true) (L.busy lane.new) (L.faults lane.old) (L.faults lane.new) }
        ensures running { ¬ (result ≡ Some how.Halted) }
        ensures noted { superseded.new ≡ false → PublishedNothing (view pass.old) (view pass.new) }
    {
        let _ = ticket;
        let alloc = self.means.alloc;
        let answer = halted_answer(alloc);
        let Ok(bytes) = sent(alloc, self.request, &answer) else {
            return Some(How::NoMemory);
        };
        if halt_host(self.means.rt, self.means.hall, pass) {
            *superseded = true;
            Some(send(lane, self.request, &answer, bytes.as_slice(), &[]))
        } else {
            *superseded = true;
            None
        }
    }
}

// Answers why the change was not made.
fn refuse<L: Lane>(alloc: Global, lane: &mut L, request: &Request, fault: &ChangeFault) -> How
    requires { L.busy lane.old ≡ true }
    ensures sent { IsSent result request.now (fault_answer fault.now) [] [] (L.past lane.old) (L.past lane.new) }
    ensures since { L.since lane.new ≡ L.since lane.old }
    ensures lane { KeepsConnection (is_fault result ≡ true) (L.busy lane.new) (L.faults lane.old) (L.faults lane.new) }
{
    match fault.answer(alloc) {
        Ok(answer) => reply_with(alloc, lane, request, &answer),
        Err(_) => How::NoMemory,
    }
}
