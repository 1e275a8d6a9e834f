//! A connection is relayed to its end.
ghost use Rattle.std.specs.Prelude.{◌≡◌, Bool, true, false, length};
ghost use Rattle.cd_session.specs.Ends.{HasRisen, RisesBy, HaltedBy};
ghost use Rattle.cd_gateway.specs.Stepping.{MayDial, Moment, moment, GoesOn, IsEnded, Steps};

use crate::requests::after_request;
use crate::worker::Worker;
use cd_outside::Lane;
use cd_peers::Peers;
use cd_proxy::relay;
use cd_session::{Cause, ConnectionEnd, READ_BYTES, Session, read_more, refuse};
use cd_text::NoMemory;
use cd_wire::Next;
use std::sync::Wait;

impl<R: Wait> Worker<'_, R> {
    /// Relays the requests of the connection that is there, and ends it. The peers have no exchange, before and after.
    pub(crate) fn relay_connection<L: Lane, P: Peers>(
        &self,
        lane: &mut L,
        peers: &mut P,
        room: &mut [u8; READ_BYTES],
    ) -> ConnectionEnd
        requires may { MayDial self.now.place (length self.now.upstreams.now) (P.busy peers.old) }
        requires busy { L.busy lane.old ≡ true }
        ensures busy { L.busy lane.new ≡ false }
        ensures idle { P.busy peers.new ≡ false }
        ensures ends { IsEnded self.now.upstreams.now result (moment (L.past lane.old) (P.past peers.old) (P.faults peers.old)) (moment (L.past lane.new) (P.past peers.new) (P.faults peers.new)) }
        ensures cause { HasRisen result.cause (L.faults lane.old) (L.faults lane.new) }
        ensures running { result.halted ≡ false }
    {
        let end = self.relay_requests(lane, peers, room);
        lane.end();
        end
    }

    fn relay_requests<L: Lane, P: Peers>(
        &self,
        lane: &mut L,
        peers: &mut P,
        room: &mut [u8; READ_BYTES],
    ) -> ConnectionEnd
        requires may { MayDial self.now.place (length self.now.upstreams.now) (P.busy peers.old) }
        requires busy { L.busy lane.old ≡ true }
        ensures busy { L.busy lane.new ≡ true }
        ensures idle { P.busy peers.new ≡ false }
        ensures ends { IsEnded self.now.upstreams.now result (moment (L.past lane.old) (P.past peers.old) (P.faults peers.old)) (moment (L.past lane.new) (P.past peers.new) (P.faults peers.new)) }
        ensures cause { HasRisen result.cause (L.faults lane.old) (L.faults lane.new) }
        ensures running { result.halted ≡ false }
    {
        let mut session = Session::new(self.alloc);
        for _ in self.rt.forever() {
            match self.relay_next(lane, peers, &mut session, room) {
                Some(end) => return end,
                None => {}
            }
        }
        unreachable!()
    }

    // Relays the next request, or reads more bytes, or says how the connection ended.
    fn relay_next<L: Lane, P: Peers>(
        &self,
        lane: &mut L,
        peers: &mut P,
        session: &mut Session,
        room: &mut [u8; READ_BYTES],
    ) -> Option<ConnectionEnd>
        requires may { MayDial self.now.place (length self.now.upstreams.now) (P.busy peers.old) }
        requires busy { L.busy lane.old ≡ true }
        ensures busy { L.busy lane.new ≡ true }
        ensures idle { P.busy peers.new ≡ false }
        ensures steps { (first : Moment)
            → GoesOn self.now.upstreams.now session.old.intake session.old.ended session.old.answered first (moment (L.past lane.old) (P.past peers.old) (P.faults peers.old))
            → Steps self.now.upstreams.now result session.new.intake session.new.ended session.new.answered first (moment (L.past lane.new) (P.past peers.new) (P.faults peers.new)) }
        ensures cause { RisesBy result (L.faults lane.old) (L.faults lane.new) }
        ensures halted { (halted : Bool) → HaltedBy result halted }
    {
        match session.intake.next(session.ended) {
            Ok(Next::Request(request)) => {
                let how = relay(
                    self.rt,
                    self.alloc,
                    self.balancer,
                    self.upstreams,
                    self.place,
                    lane,
                    peers,
                    &request,
                );
                after_request(session, how)
            }
            Ok(Next::More) => read_more(session, lane, room),
            Ok(Next::End) => Some(session.end(Cause::Whole)),
            Ok(Next::Cut) => Some(session.end(Cause::Whole)),
            Ok(Next::Refused(fault)) => Some(refuse(fault, session, lane)),
            Err(NoMemory) => Some(session.end(Cause::Lacking)),
        }
    }
}
