ghost use Rattle.std.specs.Prelude.{◌≡◌, ◌<◌, ◌≤◌, [], List, ℕ, length, take};
ghost use Rattle.std.specs.Io.KnownBytes.{Appends};
ghost use Rattle.cd_outside.specs.Received.{IsReceived};
ghost use Rattle.cd_outside.specs.Taken.{IsTakenWithin};
ghost use Rattle.cd_tcp.specs.Got.{IsGotWithin};

use crate::clock::{millis_since, now};
use crate::connection::Connection;
use crate::{
    BUSY_MILLIS, GRACE_MILLIS, Got, Patient, Reactor, SLOW_SECONDS, SLOW_SECONDS_WHEN_FULL,
    read_once, write_whole,
};
use cd_outside::{Received, Taken};
use cd_text::NoMemory;
use cd_wire::Intake;
use std::sync::Wait;
use std::time::{Clock, Duration};

// How many reads in a row take the next request, where each fills its room.
const MAX_READS: u32 = 4_096;

/// What becomes of a connection when its lane ends it.
#[derive(Clone, Copy, Debug, PartialEq, Eq)]
pub enum Parting {
    /// It is closed once the client has taken the last answer.
    Linger,
    /// It waits without a lane for its next request.
    Park,
    /// The same, once its lane has its place among those that wait.
    Yield,
    /// The client has ended it: it is closed.
    Close,
}

/// A connection that a lane serves. What has come is handed out first, one request at a time.
#[derive(Drop)]
pub struct Held<S> {
    pub connection: Connection<S>,
    pub parting: Parting,
    // Whether nothing was handed over yet.
    fresh: bool,
    // Whether the request that was handed out last was whole.
    whole: bool,
    // When it was handed out.
    from: Duration,
    // How long the lane has waited for bytes since the connection was quiet.
    waited: Duration,
}

impl<S: Patient> Held<S> {
    /// A connection of which nothing was taken yet, and which the lane got then.
    pub fn new(connection: Connection<S>, from: Duration) -> Held<S> {
        Held {
            connection,
            parting: Parting::Linger,
            fresh: true,
            whole: false,
            from,
            waited: Duration::ZERO,
        }
    }

    /// All bytes that were taken have been answered.
    pub fn rest(&mut self) {
        self.waited = Duration::ZERO;
    }

    /// Whether the last answer needs no lingering: its request was read whole, and nothing was left unread.
    pub fn is_clean(&self) -> bool {
        self.whole && self.connection.drained && self.connection.waiting.is_empty()
    }

    /// Writes the piece, and says how many of its bytes were written, from its front: all of them, unless the write failed. Of a
    /// stream that tells its bytes, these are then its last ones.
    pub fn write<R: Clock>(&mut self, rt: &R, reactor: &Reactor, piece: &[u8]) -> usize
        ensures bound { result ≤ length piece.now }
        ensures bytes { Appends (S.contents self.old.connection.stream) (S.contents self.new.connection.stream) (take result piece.now) }
    {
        self.parting = Parting::Linger;
        write_whole(rt, reactor, &mut self.connection.stream, piece)
    }

    /// The next bytes: first those that have come before, one request at a time, as it was read. The end is answered where the client
    /// sends no more, where the connection was quiet for `GRACE_MILLIS` or lets others go first, and where the client is too slow within
    /// a request. A read that fails on a quiet connection cuts no request, and is its end.
    pub fn receive<R: Wait + Clock>(
        &mut self,
        rt: &R,
        reactor: &Reactor,
        into: &mut Intake,
        room: &mut [u8],
    ) -> Received
        requires { 0 < length room.old }
        ensures { (piece : List ℕ) × IsReceived result piece into.old into.new }
    {
        if !into.is_empty() {
            self.receive_on(rt, reactor, into, room)
        } else if self.fresh {
            self.begin(into)
        } else {
            self.receive_quiet(rt, reactor, into, room)
        }
    }

    // The next request of a connection that was answered. It goes after those that wait where each lane has a connection. Where the last
    // one took long, the connection goes back to the loop: mostly another lane takes its next request, so what was made for the last one
    // is freed before this lane makes as much again.
    fn receive_quiet<R: Wait + Clock>(
        &mut self,
        rt: &R,
        reactor: &Reactor,
        into: &mut Intake,
        room: &mut [u8],
    ) -> Received
        requires none { into.old ≡ [] }
        requires room { 0 < length room.old }
        ensures { (piece : List ℕ) × IsReceived result piece into.old into.new }
    {
        if self.await_request(rt, reactor, room) {
            self.from = now(rt);
            self.begin(into)
        } else {
            Received::End
        }
    }

    // Waits for the next request, and says whether it is one for this lane.
    fn await_request<R: Wait + Clock>(&mut self, rt: &R, reactor: &Reactor, room: &mut [u8]) -> bool
        requires { 0 < length room.old }
    {
        if millis_since(rt, self.from) >= BUSY_MILLIS {
            self.parting = Parting::Yield;
            return false;
        }
        if reactor.is_full() {
            self.parting = Parting::Park;
            return false;
        }
        if !self.look(rt, reactor) {
            return false;
        }
        for _ in 0..MAX_READS {
            if self.connection.waiting.is_due(0) {
                return true;
            }
            if !self.read_next(rt, reactor, room) {
                return false;
            }
        }
        self.parting = Parting::Park;
        false
    }

    // Looks what has come of the next request. For want of memory the connection is over.
    fn look<R: Wait>(&mut self, rt: &R, reactor: &Reactor) -> bool {
        if self.connection.waiting.look().is_err() {
            reactor.count_cut(rt);
            self.parting = Parting::Close;
            return false;
        }
        true
    }

    // Hands over the next request.
    fn begin(&mut self, into: &mut Intake) -> Received
        requires { into.old ≡ [] }
        ensures { (piece : List ℕ) × IsReceived result piece into.old into.new }
    {
        if self.connection.waiting.is_empty() {
            self.parting = Parting::Close;
            return Received::End;
        }
        self.fresh = false;
        self.whole = self.connection.waiting.hand_over(into);
        Received::Some
    }

    // Reads once for the next request, and says whether to go on: where it has not come as far as it will without waiting, the connection
    // waits without a lane.
    fn read_next<R: Wait + Clock>(&mut self, rt: &R, reactor: &Reactor, into: &mut [u8]) -> bool
        requires { 0 < length into.old }
        ensures { length into.new ≡ length into.old }
    {
        self.wait_for_reads(reactor);
        let len = into.len();
        match read_once(&mut self.connection.stream, into) {
            Got::Bytes(count) => self.add(rt, reactor, &into[..count], count < len),
            Got::Late => {
                self.parting = Parting::Park;
                false
            }
            Got::End | Got::Failed => self.end_of_input(rt, reactor),
        }
    }

    // Keeps a piece of the next request. `drained` says that no more was there.
    fn add<R: Wait + Clock>(
        &mut self,
        rt: &R,
        reactor: &Reactor,
        piece: &[u8],
        drained: bool,
    ) -> bool {
        self.connection.drained = drained;
        if self.connection.waiting.push(piece).is_err() {
            reactor.count_cut(rt);
            self.parting = Parting::Close;
            return false;
        }
        if !self.look(rt, reactor) {
            return false;
        }
        if drained && !self.connection.waiting.is_due(0) {
            self.parting = Parting::Park;
            return false;
        }
        true
    }

    // The client sends no more: what has come of its next request is handed out.
    fn end_of_input<R: Wait>(&mut self, rt: &R, reactor: &Reactor) -> bool {
        if self.connection.waiting.is_empty() {
            self.parting = Parting::Close;
            false
        } else {
            self.connection.waiting.ended = true;
            self.look(rt, reactor)
        }
    }

    // From now on reads wait, and the loop does not look at the connection.
    fn wait_for_reads(&mut self, reactor: &Reactor) {
        if !self.connection.waits {
            let _ = self.connection.stream.wait();
            self.connection.waits = true;
        }
        if self.connection.watched {
            reactor.unwatch(self.connection.stream.descriptor());
            self.connection.watched = false;
        }
    }

    // Reads within a request, of which more bytes are wanted than were handed over. Nothing else has come then.
    fn receive_on<R: Wait + Clock>(
        &mut self,
        rt: &R,
        reactor: &Reactor,
        into: &mut Intake,
        room: &mut [u8],
    ) -> Received
        requires { 0 < length room.old }
        ensures { (piece : List ℕ) × IsReceived result piece into.old into.new }
    {
        match self.read(rt, reactor, room) {
            Taken::Bytes(count) => match into.push(&room[..count]) {
                Ok(()) => Received::Some,
                Err(NoMemory) => Received::Lacking,
            },
            Taken::End => Received::End,
            Taken::Failed => Received::Failed,
        }
    }

    /// Reads bytes that have not come before. It fails where some have.
    pub fn read<R: Wait + Clock>(&mut self, rt: &R, reactor: &Reactor, into: &mut [u8]) -> Taken
        requires { 0 < length into.old }
        ensures { IsTakenWithin result (length into.new) }
    {
        self.whole = false;
        if !self.connection.waiting.is_empty() {
            return Taken::Failed;
        }
        if self.connection.waiting.ended {
            self.parting = Parting::Close;
            return Taken::End;
        }
        self.wait_for_reads(reactor);
        match self.read_timed(rt, reactor, into) {
            Got::Bytes(count) => {
                self.connection.drained = count < into.len();
                Taken::Bytes(count)
            }
            Got::Late => Taken::End,
            Got::End => {
                self.parting = Parting::Close;
                Taken::End
            }
            Got::Failed => Taken::Failed,
        }
    }

    // Waits for bytes until the time that a request has is over: first as long as a quiet connection would, then in turns of a
    // second.
    fn read_timed<R: Clock>(&mut self, rt: &R, reactor: &Reactor, into: &mut [u8]) -> Got
        requires { 0 < length into.old }
        ensures { IsGotWithin result (length into.new) }
    {
        let got = self.read_in_time(rt, reactor, into);
        if got != Got::Late {
            return got;
        }
        let _ = self.connection.stream.wait_at_most(Duration::from_secs(1));
        let got = self.read_in_turns(rt, reactor, into);
        let grace = Duration::from_millis(GRACE_MILLIS);
        let _ = self.connection.stream.wait_at_most(grace);
        got
    }

    fn read_in_turns<R: Clock>(&mut self, rt: &R, reactor: &Reactor, into: &mut [u8]) -> Got
        requires { 0 < length into.old }
        ensures { IsGotWithin result (length into.new) }
    {
        for _ in 0..SLOW_SECONDS {
            let got = self.read_in_time(rt, reactor, into);
            if got != Got::Late || self.is_too_slow(reactor) {
                return got;
            }
        }
        Got::Late
    }

    // Reads once, where the request has time left, and counts the time that it took.
    fn read_in_time<R: Clock>(&mut self, rt: &R, reactor: &Reactor, into: &mut [u8]) -> Got
        requires { 0 < length into.old }
        ensures { IsGotWithin result (length into.new) }
    {
        if self.is_too_slow(reactor) {
            return Got::Late;
        }
        let from = now(rt);
        let got = read_once(&mut self.connection.stream, into);
        let took = now(rt).saturating_sub(from);
        self.waited = self.waited.saturating_add(took);
        got
    }

    fn is_too_slow(&self, reactor: &Reactor) -> bool {
        let most = if reactor.is_full() {
            SLOW_SECONDS_WHEN_FULL
        } else {
            SLOW_SECONDS
        };
        self.waited >= Duration::from_secs(most)
    }
}
