ghost use Rattle.std.specs.Prelude.{◌≡◌, None, is_some};

use crate::dialling::dial;
use crate::{Reactor, write_whole};
use cd_outside::{Address, Given, Opened, Taken};
use cd_peers::Peers;
use cd_stdio::take_or_fail;
use std::alloc::Global;
use std::io;
use std::io::ErrorKind;
use std::net::{Net, TcpStream};
use std::time::Clock;

/// The way to upstreams over TCP, with a connection for each exchange. It tells nothing of content.
///
/// The lane that relays a request waits for its upstream itself, and holds up no other lane. How long it waits is limited: an address
/// has `DIAL_SECONDS` to take the connection, and at most `MAX_DIALS` of them are tried; a read waits for `UPSTREAM_SECONDS`; and an
/// upstream may be as slow over what is written as a client.
pub struct TcpPeers<'d, R: Net<Stream = TcpStream> + Clock> {
    rt: &'d R,
    alloc: Global,
    reactor: &'d Reactor,
    /// The exchange that is there.
    pub held: Option<TcpStream>,
    faults: u64,
    // Why the call failed last that did.
    cause: Option<io::Error>,
}

impl<'d, R: Net<Stream = TcpStream> + Clock> Drop for TcpPeers<'d, R> {
    fn drop(self) {
        let Self {
            rt: _,
            alloc: _,
            reactor: _,
            held: _,
            faults: _,
            cause: _,
        } = self;
    }
}

impl<'d, R: Net<Stream = TcpStream> + Clock> TcpPeers<'d, R> {
    /// Peers for a lane of this reactor. No exchange is there.
    pub fn new(rt: &'d R, alloc: Global, reactor: &'d Reactor) -> TcpPeers<'d, R>
        ensures { result.held ≡ None }
    {
        TcpPeers {
            rt,
            alloc,
            reactor,
            held: None,
            faults: 0,
            cause: None,
        }
    }

    /// Why the call failed last that did. It prints as the words of the system.
    pub fn cause(&self) -> Option<io::Error> {
        self.cause
    }
}

// What is said of a read that waited for too long.
fn explained(error: io::Error) -> io::Error {
    if error.kind() == ErrorKind::WouldBlock {
        io::Error::from(ErrorKind::TimedOut)
    } else {
        error
    }
}

impl<'d, R: Net<Stream = TcpStream> + Clock> Peers for TcpPeers<'d, R> {
    ghost faults = { λ peers. peers.faults };

    ghost busy = { λ peers. is_some peers.held };

    ghost past = { λ _. None };

    /// Want of memory is a failure too.
    fn dial(&mut self, to: &Address) -> Opened {
        match dial(self.rt, self.alloc, to) {
            Ok(stream) => {
                self.held = Some(stream);
                Opened::Ready
            }
            Err(error) => {
                self.cause = Some(error);
                self.faults = self.faults.saturating_add(1);
                Opened::Failed
            }
        }
    }

    fn read(&mut self, into: &mut [u8]) -> Taken {
        let Some(stream) = &mut self.held else {
            return Taken::End;
        };
        let taken = match take_or_fail(stream, into) {
            Ok(taken) => taken,
            Err(error) => {
                self.cause = Some(explained(error));
                Taken::Failed
            }
        };
        if taken == Taken::Failed {
            self.faults = self.faults.saturating_add(1);
        }
        taken
    }

    fn write(&mut self, piece: &[u8]) -> Given {
        let Some(stream) = &mut self.held else {
            return Given::All;
        };
        if write_whole(self.rt, self.reactor, stream, piece) == piece.len() {
            Given::All
        } else {
            self.cause = Some(io::Error::new(
                ErrorKind::BrokenPipe,
                "it does not take the request",
            ));
            self.faults = self.faults.saturating_add(1);
            Given::Failed
        }
    }

    fn end(&mut self) {
        self.held = None;
    }
}
