//! A connection while it is served: what is kept of it, and how it is read.
ghost use Rattle.std.specs.Prelude.{◌≡◌, ◌<◌, [], Bool, true, false, Some, length};
ghost use Rattle.cd_session.specs.Ends.{HaltedBy, RisesBy, ended_by};
ghost use Rattle.cd_session.specs.Reading.{IsRefused, ReadsOn};

use crate::cause::Cause;
use crate::connection_end::ConnectionEnd;
use crate::putting::put;
use cd_outside::{Given, Lane, Received};
use cd_wire::{Intake, WireFault, refusal};
use std::alloc::Global;

/// How many bytes are read at once, at most.
pub const READ_BYTES: usize = 16_384;

/// What is known of a connection while it is served.
#[derive(Drop)]
pub struct Session {
    /// The bytes that came and were not yet taken by a request.
    pub intake: Intake,
    /// Whether its end was seen.
    pub ended: bool,
    /// How many of its requests were answered. It stays at 2^64 - 1.
    pub answered: u64,
    /// Where answers are written before they are sent. Its memory is kept from one answer to the next.
    pub output: Vec<u8>,
}

impl Session {
    /// Of a connection that has just come: nothing was read. It takes no memory.
    pub fn new(alloc: Global) -> Session
        ensures intake { result.intake ≡ [] }
        ensures ended { result.ended ≡ false }
        ensures answered { result.answered ≡ 0 }
    {
        Session {
            intake: Intake::new(alloc),
            ended: false,
            answered: 0,
            output: Vec::new(alloc),
        }
    }

    /// It ends here, for this cause.
    pub fn end(&self, cause: Cause) -> ConnectionEnd
        ensures { result ≡ ended_by cause self.now.answered }
    {
        ConnectionEnd {
            cause,
            answered: self.answered,
            halted: false,
        }
    }
}

/// Reads the next bytes of the connection, whose end was not seen. None where it goes on. `room` is for what the lane has not read before.
///
/// Where every byte that came was taken by a request, the lane is told that it may rest.
pub fn read_more<L: Lane>(
    session: &mut Session,
    lane: &mut L,
    room: &mut [u8],
) -> Option<ConnectionEnd>
    requires busy { L.busy lane.old ≡ true }
    requires more { session.old.ended ≡ false }
    requires room { 0 < length room.old }
    ensures busy { L.busy lane.new ≡ true }
    ensures reads { ReadsOn result session.old.intake session.new.intake session.old.ended session.new.ended session.old.answered session.new.answered (L.past lane.old) (L.past lane.new) }
    ensures since { L.since lane.new ≡ L.since lane.old }
    ensures cause { RisesBy result (L.faults lane.old) (L.faults lane.new) }
    ensures halted { (halted : Bool) → HaltedBy result halted }
{
    if session.intake.is_empty() {
        lane.rest();
    }
    take_more(session, lane, room)
}

// Reads, after the lane was told whether it may rest.
fn take_more<L: Lane>(session: &mut Session, lane: &mut L, room: &mut [u8]) -> Option<ConnectionEnd>
    requires busy { L.busy lane.old ≡ true }
    requires more { session.old.ended ≡ false }
    requires room { 0 < length room.old }
    ensures busy { L.busy lane.new ≡ true }
    ensures reads { ReadsOn result session.old.intake session.new.intake session.old.ended session.new.ended session.old.answered session.new.answered (L.past lane.old) (L.past lane.new) }
    ensures since { L.since lane.new ≡ L.since lane.old }
    ensures cause { RisesBy result (L.faults lane.old) (L.faults lane.new) }
    ensures halted { (halted : Bool) → HaltedBy result halted }
{
    match lane.receive(&mut session.intake, room) {
        Received::Some => None,
        Received::End => {
            session.ended = true;
            None
        }
        Received::Failed => Some(session.end(Cause::Failed)),
        Received::Lacking => Some(session.end(Cause::Lacking)),
    }
}

/// Puts the fixed answer to what is refused, after which the connection is over.
pub fn refuse<L: Lane>(fault: WireFault, session: &Session, lane: &mut L) -> ConnectionEnd
    requires { L.busy lane.old ≡ true }
    ensures busy { L.busy lane.new ≡ true }
    ensures refused { IsRefused fault session.now.answered result (L.past lane.old) (L.past lane.new) }
    ensures since { L.since lane.new ≡ L.since lane.old }
    ensures cause { RisesBy (Some result) (L.faults lane.old) (L.faults lane.new) }
    ensures halted { (halted : Bool) → HaltedBy (Some result) halted }
{
    match put(lane, refusal(fault.status())) {
        Given::All => session.end(Cause::Whole),
        Given::Failed => session.end(Cause::Failed),
    }
}
