ghost use Rattle.std.specs.Prelude.{◌≡◌, None};

use crate::Reactor;
use crate::binding::bind;
use cd_outside::{Fixtures, Key, Opened};
use std::alloc::Global;
use std::fs::{File, Files};
use std::io;
use std::net::Net;
use std::sync::Wait;

/// The fixtures of a reactor: its listeners and log writers. They tell nothing of their calls.
pub struct TcpFixtures<'d, R: Wait + Net + Files<File = File>> {
    rt: &'d R,
    alloc: Global,
    reactor: &'d Reactor,
    faults: u64,
    // Why the last opening failed that did.
    cause: Option<io::Error>,
}

impl<'d, R: Wait + Net + Files<File = File>> Drop for TcpFixtures<'d, R> {
    fn drop(self) {
        let Self {
            rt: _,
            alloc: _,
            reactor: _,
            faults: _,
            cause: _,
        } = self;
    }
}

impl<'d, R: Wait + Net + Files<File = File>> TcpFixtures<'d, R> {
    /// The fixtures of this reactor.
    pub fn new(rt: &'d R, alloc: Global, reactor: &'d Reactor) -> TcpFixtures<'d, R> {
        TcpFixtures {
            rt,
            alloc,
            reactor,
            faults: 0,
            cause: None,
        }
    }

    /// Why the last opening failed that did. It prints as the words of the system.
    pub fn cause(&self) -> Option<io::Error> {
        self.cause
    }

    fn try_open(&self, key: &Key) -> io::Result<()> {
        match key {
            Key::Listen(address) => {
                let listeners = bind(self.rt, self.alloc, address)?;
                self.reactor.open(self.rt, listeners, address)
            }
            Key::Writer(name) => self.reactor.writers.open(self.rt, name),
        }
    }
}

impl<'d, R: Wait + Net + Files<File = File>> Fixtures for TcpFixtures<'d, R> {
    ghost faults = { λ fixtures. fixtures.faults };

    ghost calls = { λ _. None };

    /// Opens a listening address, or a log writer. A writer of another name than those that are known, an address that can't be
    /// had, and want of memory are failures.
    fn open_key(&mut self, key: &Key) -> Opened {
        match self.try_open(key) {
            Ok(()) => Opened::Ready,
            Err(error) => {
                self.faults = self.faults.saturating_add(1);
                self.cause = Some(error);
                Opened::Failed
            }
        }
    }

    /// Closes it. The port is free at once; a connection that a lane has is served to its next quiet moment.
    fn close_key(&mut self, key: &Key) {
        match key {
            Key::Listen(address) => self.reactor.close(self.rt, address),
            Key::Writer(name) => self.reactor.writers.close(self.rt, name),
        }
    }

    /// Ends the accepts that wait, once the last answers have reached their clients or had their time.
    fn shut(&mut self) {
        self.reactor.shut(self.rt);
    }
}
