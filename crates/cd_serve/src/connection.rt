//! A connection is served to its end.
ghost use Rattle.std.specs.Prelude.{◌≡◌, ℕ, Option, false};
ghost use Rattle.cd_outside.specs.declared.past.Past.{Past};
ghost use Rattle.cd_outside.specs.Since.{CameWith};
ghost use Rattle.cd_legal.specs.Legal.{state_at};
ghost use Rattle.cd_gate.specs.declared.view.View.{View};
ghost use Rattle.cd_gate.specs.Passes.{view};
ghost use Rattle.cd_hall.specs.Caches.{IsCacheOf};
ghost use Rattle.cd_hall.specs.Calls.{IsPassOf};
ghost use Rattle.cd_serve.specs.Guarding.{EndKeepsUp, HasKeptUp, StepKeepsUp};
ghost use Rattle.cd_serve.specs.Requests.{MayServe, OwesNothing};
ghost use Rattle.cd_serve.specs.Stepping.{EndsConnection, GoesOn, Steps, RisesBy, HaltedBy};

use crate::means::Means;
use crate::session::after_request;
use crate::task::Task;
use cd_admin::Administered;
use cd_gate::Pass;
use cd_hall::Cache;
use cd_life::Board;
use cd_outside::{Fixtures, Lane};
use cd_session::{Cause, ConnectionEnd, READ_BYTES, Session, read_more, refuse};
use cd_text::NoMemory;
use cd_wire::Next;
use std::sync::Wait;

impl<'m, R: Wait, M: Administered, F: Fixtures> Means<'m, R, M, F> {
    /// Serves the connection that is there, and ends it. The pass owes nothing, before and after.
    pub(crate) fn serve_connection<L: Lane>(
        &self,
        pass: &mut Pass<Board<M, F>>,
        cache: &mut Cache<M>,
        lane: &mut L,
        room: &mut [u8; READ_BYTES],
    ) -> ConnectionEnd
        requires may { MayServe self.now.hall.now pass.old cache.old (L.busy lane.old) }
        ensures pass { IsPassOf self.now.hall.now pass.new }
        ensures cache { IsCacheOf (view pass.new) cache.new }
        ensures free { OwesNothing (view pass.new) }
        ensures busy { L.busy lane.new ≡ false }
        ensures ends { EndsConnection (record { acts = M.acts; plan = M.plan }) self.now.at.now result (view pass.old) (view pass.new) (L.past lane.old) (L.past lane.new) (L.faults lane.old) (L.faults lane.new) }
        ensures since { L.since lane.new ≡ L.since lane.old }
        ensures keeps_up { (since : ℕ) → CameWith (L.since lane.old) since → EndKeepsUp since result (view pass.old) (view pass.new) (L.past lane.old) (L.past lane.new) }
    {
        let mut session = Session::new(self.alloc);
        for _ in self.rt.forever() {
            match self.serve_next(pass, cache, lane, &mut session, room) {
                Some(end) => {
                    lane.end();
                    return end;
                }
                None => {}
            }
        }
        unreachable!()
    }

    // Serves the next request, or reads more bytes, or says how the connection ended.
    fn serve_next<L: Lane>(
        &self,
        pass: &mut Pass<Board<M, F>>,
        cache: &mut Cache<M>,
        lane: &mut L,
        session: &mut Session,
        room: &mut [u8; READ_BYTES],
    ) -> Option<ConnectionEnd>
        requires may { MayServe self.now.hall.now pass.old cache.old (L.busy lane.old) }
        ensures may { MayServe self.now.hall.now pass.new cache.new (L.busy lane.new) }
        ensures steps { (v : View _) (first : Option Past)
            → GoesOn (record { acts = M.acts; plan = M.plan }) self.now.at.now session.old.intake session.old.ended session.old.answered v (view pass.old) first (L.past lane.old)
            → Steps (record { acts = M.acts; plan = M.plan }) self.now.at.now result session.new.intake session.new.ended session.new.answered v (view pass.new) first (L.past lane.new) }
        ensures since { L.since lane.new ≡ L.since lane.old }
        ensures keeps_up { (since : ℕ) (v : View _) (first : Option Past) → CameWith (L.since lane.old) since
            → GoesOn (record { acts = M.acts; plan = M.plan }) self.now.at.now session.old.intake session.old.ended session.old.answered v (view pass.old) first (L.past lane.old)
            → HasKeptUp since v (view pass.old) → StepKeepsUp since result v (view pass.new) first (L.past lane.new) }
        ensures cause { RisesBy result (L.faults lane.old) (L.faults lane.new) }
        ensures halted { HaltedBy result (state_at (view pass.new).seen).halted }
    {
        match session.intake.next(session.ended) {
            Ok(Next::Request(request)) => {
                let task = Task {
                    means: self,
                    request: &request,
                };
                let out = &mut session.output;
                let how = task.serve_request(pass, cache, lane, out);
                after_request::<Board<M, F>, L>(session, lane, how)
            }
            Ok(Next::More) => read_more(session, lane, room),
            Ok(Next::End) => Some(session.end(Cause::Whole)),
            Ok(Next::Cut) => Some(session.end(Cause::Whole)),
            Ok(Next::Refused(fault)) => Some(refuse(fault, session, lane)),
            Err(NoMemory) => Some(session.end(Cause::Lacking)),
        }
    }
}
