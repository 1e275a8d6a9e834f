ghost use Rattle.std.specs.Prelude.{◌≡◌, ◌<◌, ◌≤◌, None, is_some, length};
ghost use Rattle.cd_outside.specs.Counts.{Rises};

use crate::connection::Connection;
use crate::reactor::Next;
use crate::{Held, Parting, Reactor};
use cd_outside::{Accepted, Address, Given, Gives, Key, Lane, Received, Taken, given_of};
use cd_text::Text;
use cd_wire::Intake;
use std::alloc::Global;
use std::io;
use std::io::ErrorKind;
use std::net::TcpStream;
use std::sync::Wait;
use std::time::{Clock, Duration};

/// A lane of a reactor: it serves one of its connections at a time. It tells nothing of content.
pub struct TcpLane<'d, R: Wait + Clock> {
    rt: &'d R,
    alloc: Global,
    reactor: &'d Reactor,
    /// The connection that is there.
    pub held: Option<Held<TcpStream>>,
    // The connection that goes back to the loop when this lane waits for the next one.
    back: Option<Connection<TcpStream>>,
    // When it last had to wait for a connection.
    since: Duration,
    faults: u64,
    // Why the last accept or log line failed that did.
    cause: Option<io::Error>,
}

impl<'d, R: Wait + Clock> Drop for TcpLane<'d, R> {
    fn drop(self) {
        let Self {
            rt: _,
            alloc: _,
            reactor: _,
            held: _,
            back: _,
            since: _,
            faults: _,
            cause: _,
        } = self;
    }
}

// What comes to a lane that waits.
enum Waited {
    // A connection, and the address that it came to.
    Connection(Held<TcpStream>, Address),
    Ended,
    Failed(io::Error),
}

impl<'d, R: Wait + Clock> TcpLane<'d, R> {
    /// A lane with no connection.
    pub fn new(rt: &'d R, alloc: Global, reactor: &'d Reactor) -> TcpLane<'d, R>
        ensures { result.held ≡ None }
    {
        TcpLane {
            rt,
            alloc,
            reactor,
            held: None,
            back: None,
            since: Duration::ZERO,
            faults: 0,
            cause: None,
        }
    }

    /// Why the last accept or log line failed that did. It prints as the words of the system.
    pub fn cause(&self) -> Option<io::Error> {
        self.cause
    }

    // The next connection, or why there is none. One for whose address there is no memory is let go.
    fn wait(&self, since: &mut Duration, mut back: Option<Connection<TcpStream>>) -> Waited {
        for _ in self.rt.forever() {
            match self.reactor.next(self.rt, since, back.take()) {
                Next::Connection(connection) => {
                    if let Ok(address) = connection.address.copy(self.alloc) {
                        return Waited::Connection(Held::new(connection, *since), address);
                    }
                    self.reactor.count_cut(self.rt);
                }
                Next::Shut => return Waited::Ended,
                Next::Failed(error) => return Waited::Failed(error),
            }
        }
        unreachable!()
    }

    // Writes the piece, and says how many of its bytes were given. Fewer than all are a fault.
    fn put(&mut self, piece: &[u8]) -> usize
        ensures busy { is_some self.new.held ≡ is_some self.old.held }
        ensures bound { result ≤ length piece.now }
        ensures cause { Rises self.old.faults self.new.faults (result < length piece.now) }
    {
        let Some(held) = &mut self.held else {
            return piece.len();
        };
        let count = held.write(self.rt, self.reactor, piece);
        if count < piece.len() {
            self.faults = self.faults.saturating_add(1);
        }
        count
    }

    fn try_log(&self, key: &Key, line: &Text) -> io::Result<()> {
        match key {
            Key::Listen(_) => Err(io::Error::from(ErrorKind::InvalidInput)),
            Key::Writer(name) => {
                let line = line.as_str().as_bytes();
                self.reactor.writers.log(self.rt, name, line)
            }
        }
    }
}

impl<'d, R: Wait + Clock> Lane for TcpLane<'d, R> {
    ghost faults = { λ lane. lane.faults };

    ghost busy = { λ lane. is_some lane.held };

    ghost past = { λ _. None };

    ghost since = { λ _. None };

    fn accept(&mut self) -> Accepted {
        let back = self.back.take();
        let mut since = self.since;
        let waited = self.wait(&mut since, back);
        self.since = since;
        match waited {
            Waited::Connection(held, address) => {
                self.held = Some(held);
                Accepted::Connection(address)
            }
            Waited::Ended => Accepted::Ended,
            Waited::Failed(error) => {
                self.cause = Some(error);
                self.faults = self.faults.saturating_add(1);
                Accepted::Failed
            }
        }
    }

    /// What has come before can be had by `receive` alone: where there is some, this is a failure.
    fn read(&mut self, into: &mut [u8]) -> Taken {
        let Some(held) = &mut self.held else {
            return Taken::End;
        };
        let taken = held.read(self.rt, self.reactor, into);
        if taken == Taken::Failed {
            self.faults = self.faults.saturating_add(1);
        }
        taken
    }

    fn receive(&mut self, into: &mut Intake, room: &mut [u8]) -> Received {
        let Some(held) = &mut self.held else {
            return Received::End;
        };
        let received = held.receive(self.rt, self.reactor, into, room);
        if received == Received::Failed {
            self.faults = self.faults.saturating_add(1);
        }
        received
    }

    fn rest(&mut self) {
        if let Some(held) = &mut self.held {
            held.rest();
        }
    }

    #[tactic(auto, using(cd_stdio::proofs::GivenParts::untold_part, cd_stdio::proofs::GivenParts::rises_for))]
    fn write(&mut self, piece: &[u8]) -> Given {
        given_of(self.put(piece), piece)
    }

    fn log(&mut self, key: &Key, line: &Text) -> Given {
        match self.try_log(key, line) {
            Ok(()) => Given::All,
            Err(error) => {
                self.cause = Some(error);
                self.faults = self.faults.saturating_add(1);
                Given::Failed
            }
        }
    }

    /// Nothing is kept here: the answer is `All`.
    fn keep<W: Wait>(&mut self, _rt: &W, _serial: u32, _text: &[u8]) -> Given {
        Given::All
    }

    fn seen(&mut self, _serial: u32) -> Given {
        Given::All
    }

    fn end(&mut self) {
        if let Some(held) = self.held.take() {
            self.back = part(self.rt, self.reactor, held);
        }
    }
}

impl<'d, R: Wait + Clock> Gives for TcpLane<'d, R> {
    fn give(&mut self, piece: &[u8]) -> usize {
        self.put(piece)
    }
}

// Closes a connection, or gives it to the reactor, unless that comes later.
fn part<R: Wait + Clock>(
    rt: &R,
    reactor: &Reactor,
    held: Held<TcpStream>,
) -> Option<Connection<TcpStream>> {
    let clean = held.is_clean();
    let Held {
        mut connection,
        parting,
        ..
    } = held;
    match parting {
        Parting::Park | Parting::Yield => {
            if connection.waiting.look().is_err() {
                reactor.count_cut(rt);
                return None;
            }
            connection.waiting.let_memory_go();
            if parting == Parting::Yield {
                return Some(connection);
            }
            reactor.park(rt, connection);
        }
        Parting::Linger if !clean => reactor.linger(rt, connection),
        Parting::Linger | Parting::Close => {}
    }
    None
}
