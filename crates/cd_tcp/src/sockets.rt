use crate::aged::Aged;
use crate::connection::Connection;
use crate::tokens::{Id, Subject};
use crate::{IDLE_SECONDS, LINGER_SECONDS, MAX_WAITING, READ_BYTES};
use cd_outside::Address;
use mio::unix::SourceFd;
use mio::{Interest, Registry};
use std::alloc::{AllocError, Global};
use std::collections::VecDeque;
use std::io::ErrorKind;
use std::net::{Shutdown, TcpListener, TcpStream};
use std::os::fd::{AsRawFd, RawFd};
use std::time::Duration;
use std::{io, mem};

/// A listener, and the address that it was opened for.
#[derive(Drop)]
pub struct Listening {
    pub listener: TcpListener,
    pub address: Address,
}

/// The listeners, and the connections that no lane has. It is locked for calls that don't wait.
#[derive(Drop)]
pub struct Sockets {
    pub alloc: Global,
    shut: bool,
    pub listeners: Aged<Listening>,
    /// Those of which no whole request has come.
    pub parked: Aged<Connection<TcpStream>>,
    /// Those whose last answer was written.
    pub leaving: Aged<TcpStream>,
    // Those with a request, in the order in which they got it.
    ready: VecDeque<Connection<TcpStream>>,
    // Those that are closed once the lock is free.
    closed: Vec<TcpStream>,
    /// A descriptor that is given up where there is no other.
    pub spare: Option<Registry>,
    /// Where bytes are read to.
    pub room: Vec<u8>,
    /// How much memory is taken for what has come of the connections.
    pub kept: usize,
    /// How many connections were let go for want of memory. It stays at 2^64 - 1.
    pub cut: u64,
    /// What accepts came to since this was asked last.
    pub accepts: Accepts,
    /// When listeners are looked at again whose accepts failed.
    pub retry: Option<Duration>,
}

/// What accepts came to.
#[derive(Clone, Copy, Drop)]
pub struct Accepts {
    /// Whether one did not fail.
    pub any: bool,
    /// Why the last one failed.
    pub fault: Option<io::Error>,
}

const NO_ACCEPTS: Accepts = Accepts {
    any: false,
    fault: None,
};

impl Sockets {
    /// Nothing is open, and nothing waits.
    pub fn new(alloc: Global, spare: Registry) -> Result<Sockets, AllocError> {
        let room = Vec::from_elem(alloc, 0u8, READ_BYTES)?;
        Ok(Sockets {
            alloc,
            shut: false,
            listeners: Aged::new(alloc),
            parked: Aged::new(alloc),
            leaving: Aged::new(alloc),
            ready: VecDeque::new(alloc),
            closed: Vec::new(alloc),
            spare: Some(spare),
            room,
            kept: 0,
            cut: 0,
            accepts: NO_ACCEPTS,
            retry: None,
        })
    }

    /// The connection that has been ready longest.
    pub fn next(&mut self) -> Option<Connection<TcpStream>> {
        let connection = self.ready.pop_front()?;
        self.kept = self.kept.saturating_sub(connection.waiting.memory());
        Some(connection)
    }

    /// Whether a connection is ready for a lane.
    pub fn has_ready(&self) -> bool {
        !self.ready.is_empty()
    }

    /// Whether no connection will come any more.
    pub fn is_shut(&self) -> bool {
        self.shut
    }

    /// Whether a client still has to take its last answer.
    pub fn has_leaving(&self) -> bool {
        !self.leaving.is_empty()
    }

    /// What accepts came to since this was asked last.
    pub fn take_accepts(&mut self) -> Accepts {
        mem::replace(&mut self.accepts, NO_ACCEPTS)
    }

    /// The connections that were let go. They are closed when they are dropped.
    pub fn take_closed(&mut self) -> Vec<TcpStream> {
        mem::replace(&mut self.closed, Vec::new(self.alloc))
    }

    /// Closes a connection once the lock is free.
    pub fn let_go(&mut self, connection: Connection<TcpStream>) {
        let Connection { stream, .. } = connection;
        self.close_later(stream);
    }

    /// Closes a stream once the lock is free; for want of memory at once.
    pub fn close_later(&mut self, stream: TcpStream) {
        let _ = self.closed.push(stream);
    }

    /// Has the poll watch the listeners of an address, which is not open yet. After an error none is open.
    pub fn open(
        &mut self,
        registry: &Registry,
        listeners: Vec<TcpListener>,
        address: &Address,
    ) -> io::Result<()> {
        for listener in listeners {
            if let Err(error) = self.open_one(registry, listener, address) {
                self.close(address);
                return Err(error);
            }
        }
        Ok(())
    }

    fn open_one(
        &mut self,
        registry: &Registry,
        listener: TcpListener,
        address: &Address,
    ) -> io::Result<()> {
        let fd = listener.as_raw_fd();
        let Ok(address) = address.copy(self.alloc) else {
            return Err(io::Error::from(ErrorKind::OutOfMemory));
        };
        let listening = Listening { listener, address };
        let Some(id) = self.listeners.insert(listening, Duration::ZERO) else {
            return Err(io::Error::from(ErrorKind::OutOfMemory));
        };
        watch(registry, fd, Subject::Listener(id))
    }

    /// Closes the listeners of an address, and lets go of the connections that came there and have no lane.
    pub fn close(&mut self, address: &Address) {
        for id in self.listeners.ids(self.alloc) {
            if let Some(listening) = self.listeners.get(id)
                && listening.address == *address
            {
                let _ = self.listeners.remove(id);
            }
        }
        for id in self.parked.ids(self.alloc) {
            if let Some(connection) = self.parked.get(id)
                && connection.address == *address
            {
                self.unpark(id);
            }
        }
        self.close_ready(address);
    }

    fn close_ready(&mut self, address: &Address) {
        for _ in 0..self.ready.len() {
            if let Some(connection) = self.ready.pop_front() {
                if connection.address == *address {
                    self.kept = self.kept.saturating_sub(connection.waiting.memory());
                    self.let_go(connection);
                } else {
                    let _ = self.ready.push_back(connection);
                }
            }
        }
    }

    // Lets go of a connection that waits.
    fn unpark(&mut self, id: Id) {
        if let Some(connection) = self.take_parked(id) {
            self.let_go(connection);
        }
    }

    /// Takes a connection that waits.
    pub fn take_parked(&mut self, id: Id) -> Option<Connection<TcpStream>> {
        let connection = self.parked.remove(id)?;
        self.kept = self.kept.saturating_sub(connection.waiting.memory());
        Some(connection)
    }

    /// Lets no connection come any more, and lets go of those that have no lane.
    pub fn shut(&mut self) {
        self.shut = true;
        for id in self.parked.ids(self.alloc) {
            self.unpark(id);
        }
        for _ in 0..self.ready.len() {
            if let Some(connection) = self.ready.pop_front() {
                self.let_go(connection);
            }
        }
        self.kept = 0;
    }

    /// Keeps a connection without a lane until a request has come, where its address is still open. It goes after those that have one.
    pub fn park(&mut self, registry: &Registry, connection: Connection<TcpStream>, now: Duration) {
        if self.shut || !self.is_open(&connection.address) {
            self.let_go(connection);
            return;
        }
        if connection.waiting.is_due(self.kept) {
            self.call(connection);
        } else {
            self.wait_for_more(registry, connection, now);
        }
    }

    fn is_open(&self, address: &Address) -> bool {
        let slots = &self.listeners.slots;
        slots.iter().any(|(_, slot)| slot.value.address == *address)
    }

    /// A connection is ready for a lane.
    pub fn call(&mut self, connection: Connection<TcpStream>) {
        let room = connection.waiting.memory();
        if self.ready.push_back(connection).is_ok() {
            self.kept = self.kept.saturating_add(room);
        } else {
            self.cut = self.cut.saturating_add(1);
        }
    }

    /// Has the poll report when more has come of a connection.
    pub fn wait_for_more(
        &mut self,
        registry: &Registry,
        connection: Connection<TcpStream>,
        now: Duration,
    ) {
        if self.is_full() {
            let _ = self.make_room(now);
        }
        let fd = connection.stream.as_raw_fd();
        let watched = connection.watched;
        let room = connection.waiting.memory();
        let Some(id) = self.parked.insert(connection, now) else {
            self.cut = self.cut.saturating_add(1);
            return;
        };
        self.kept = self.kept.saturating_add(room);
        if watch_on(registry, fd, Subject::Parked(id), watched).is_ok() {
            if let Some(connection) = self.parked.get_mut(id) {
                connection.watched = true;
            }
        } else {
            self.unpark(id);
        }
    }

    fn is_full(&self) -> bool {
        self.parked.len().saturating_add(self.leaving.len()) >= MAX_WAITING
    }

    /// Closes at once what has waited longest: one that has its last answer, or else one that has waited since before then. It says
    /// whether there was one.
    pub fn make_room(&mut self, now: Duration) -> bool {
        if self.leaving.take_oldest(Duration::MAX).is_some() {
            return true;
        }
        match self.parked.take_oldest(now) {
            Some(connection) => {
                self.kept = self.kept.saturating_sub(connection.waiting.memory());
                true
            }
            None => false,
        }
    }

    /// Lets a connection go once its client has taken the last answer.
    pub fn linger(
        &mut self,
        registry: &Registry,
        connection: Connection<TcpStream>,
        now: Duration,
    ) {
        let Connection {
            stream,
            watched,
            ..
        } = connection;
        if self.is_full()
            || stream.shutdown(Shutdown::Write).is_err()
            || stream.set_nonblocking(true).is_err()
        {
            self.close_later(stream);
            return;
        }
        let fd = stream.as_raw_fd();
        let Some(id) = self.leaving.insert(stream, now) else {
            return;
        };
        if watch_on(registry, fd, Subject::Leaving(id), watched).is_err() {
            let _ = self.leaving.remove(id);
        }
    }

    /// Lets go of what has waited or lingered too long.
    pub fn expire(&mut self, now: Duration) {
        let idle = now.saturating_sub(Duration::from_secs(IDLE_SECONDS));
        for _ in 0..self.parked.len() {
            match self.parked.take_oldest(idle) {
                Some(connection) => {
                    self.kept = self.kept.saturating_sub(connection.waiting.memory());
                    self.let_go(connection);
                }
                None => break,
            }
        }
        let linger = now.saturating_sub(Duration::from_secs(LINGER_SECONDS));
        for _ in 0..self.leaving.len() {
            match self.leaving.take_oldest(linger) {
                Some(stream) => self.close_later(stream),
                None => break,
            }
        }
    }
}

// Has the poll report, at the next change, that bytes or connections have come.
fn watch(registry: &Registry, fd: RawFd, subject: Subject) -> io::Result<()> {
    registry.register(&mut SourceFd(&fd), subject.token(), Interest::READABLE)
}

// The same, where it may be watched already: what is there is then reported once more.
fn watch_on(registry: &Registry, fd: RawFd, subject: Subject, watched: bool) -> io::Result<()> {
    if watched {
        registry.reregister(&mut SourceFd(&fd), subject.token(), Interest::READABLE)
    } else {
        watch(registry, fd, subject)
    }
}

/// Has the poll report what is there already once more.
pub fn watch_again(registry: &Registry, fd: RawFd, subject: Subject) {
    let _ = watch_on(registry, fd, subject, true);
}

/// Has the poll report no more of a connection.
pub fn unwatch(registry: &Registry, fd: RawFd) {
    let _ = registry.deregister(&mut SourceFd(&fd));
}
