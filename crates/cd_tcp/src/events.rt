//! What is done where the poll reports that bytes or connections have come.
use crate::accepting::{Came, accept};
use crate::connection::{Connection, Receipt};
use crate::draining::{Drained, drain};
use crate::sockets::{Sockets, watch_again};
use crate::tokens::{Id, Subject};
use crate::{MAX_ACCEPTS, TRY_PAUSE_MILLIS};
use mio::Registry;
use std::io;
use std::net::TcpStream;
use std::os::fd::AsRawFd;
use std::time::Duration;

// How accepting goes on.
enum Turn {
    Next,
    // No connection waits.
    Done,
    // It is tried again later.
    Failed,
}

impl Sockets {
    /// Sees to what has happened. `ended` says that the client there sends no more.
    pub fn on_event(&mut self, registry: &Registry, subject: Subject, ended: bool, now: Duration) {
        match subject {
            Subject::Waker => {}
            Subject::Listener(id) => self.accept_all(registry, id, now),
            Subject::Parked(id) => self.read_more(registry, id, ended),
            Subject::Leaving(id) => self.drain(registry, id),
        }
    }

    // Reads what has come of a connection that waits.
    fn read_more(&mut self, registry: &Registry, id: Id, ended: bool) {
        let Some(connection) = self.parked.get_mut(id) else {
            return;
        };
        let before = connection.waiting.memory();
        let receipt = connection.receive(self.room.as_mut_slice(), ended);
        let after = connection.waiting.memory();
        self.kept = self.kept.saturating_sub(before).saturating_add(after);
        match receipt {
            Receipt::Some => self.go_on(registry, id),
            Receipt::Over => self.end(id),
            Receipt::Lacking => {
                self.cut = self.cut.saturating_add(1);
                self.end(id);
            }
        }
    }

    fn end(&mut self, id: Id) {
        if let Some(connection) = self.take_parked(id) {
            self.let_go(connection);
        }
    }

    // A connection that waits is ready for a lane, or waits on.
    fn go_on(&mut self, registry: &Registry, id: Id) {
        let Some(connection) = self.parked.get(id) else {
            return;
        };
        if connection.waiting.is_due(self.kept) {
            if let Some(connection) = self.take_parked(id) {
                self.call(connection);
            }
        } else if !connection.drained {
            watch_again(registry, connection.stream.as_raw_fd(), Subject::Parked(id));
        }
    }

    // Reads what a client sends after its last answer.
    fn drain(&mut self, registry: &Registry, id: Id) {
        let Some(stream) = self.leaving.get_mut(id) else {
            return;
        };
        match drain(stream, self.room.as_mut_slice()) {
            Drained::Empty => {}
            Drained::More => watch_again(registry, stream.as_raw_fd(), Subject::Leaving(id)),
            Drained::Over => {
                if let Some(stream) = self.leaving.remove(id) {
                    self.close_later(stream);
                }
            }
        }
    }

    // Takes the connections that wait at a listener, so many at most.
    fn accept_all(&mut self, registry: &Registry, id: Id, now: Duration) {
        let mut evicted = false;
        for _ in 0..MAX_ACCEPTS {
            match self.accept_one(registry, id, now, &mut evicted) {
                Turn::Next => {}
                Turn::Done => return,
                Turn::Failed => return,
            }
        }
        self.listen_again(registry, id);
    }

    /// Has the poll report the connections that wait at a listener once more.
    pub fn listen_again(&mut self, registry: &Registry, id: Id) {
        if let Some(listening) = self.listeners.get(id) {
            let fd = listening.listener.as_raw_fd();
            watch_again(registry, fd, Subject::Listener(id));
        }
    }

    // Takes one connection. `evicted` says that another one was closed for it.
    fn accept_one(
        &mut self,
        registry: &Registry,
        id: Id,
        now: Duration,
        evicted: &mut bool,
    ) -> Turn {
        let Some(listening) = self.listeners.get(id) else {
            return Turn::Done;
        };
        match accept(self.alloc, &listening.listener, &listening.address) {
            Came::Connection(connection) => {
                *evicted = false;
                self.accepts.any = true;
                self.begin(registry, connection, now);
                Turn::Next
            }
            Came::Nobody => {
                self.accepts.any = true;
                Turn::Done
            }
            Came::Gone => Turn::Next,
            Came::Lacking => {
                self.cut = self.cut.saturating_add(1);
                Turn::Next
            }
            Came::NoDescriptor(error) => {
                if !*evicted && self.make_room(now) {
                    *evicted = true;
                    Turn::Next
                } else {
                    self.turn_away(registry, id, error, now)
                }
            }
            Came::Failed(error) => self.fail(error, now),
        }
    }

    // The listeners are looked at again after a pause. Who polls may make it longer.
    fn fail(&mut self, error: io::Error, now: Duration) -> Turn {
        self.accepts.fault = Some(error);
        self.retry = Some(now.saturating_add(Duration::from_millis(TRY_PAUSE_MILLIS)));
        Turn::Failed
    }

    // Takes a connection by the spare descriptor, and closes it: its client sees an end, and the queue does not stand still.
    fn turn_away(&mut self, registry: &Registry, id: Id, error: io::Error, now: Duration) -> Turn {
        let had = self.spare.take().is_some();
        let taken = had && self.accept_and_close(id);
        self.spare = registry.try_clone().ok();
        if taken {
            Turn::Next
        } else {
            self.fail(error, now)
        }
    }

    fn accept_and_close(&mut self, id: Id) -> bool {
        match self.listeners.get(id) {
            Some(listening) => listening.listener.accept().is_ok(),
            None => false,
        }
    }

    // A connection was just accepted. It is read before the poll watches it: mostly its request is there.
    fn begin(&mut self, registry: &Registry, mut connection: Connection<TcpStream>, now: Duration) {
        match connection.receive(self.room.as_mut_slice(), false) {
            Receipt::Some => {
                if connection.waiting.is_due(self.kept) {
                    self.call(connection);
                } else {
                    self.wait_for_more(registry, connection, now);
                }
            }
            Receipt::Over => self.let_go(connection),
            Receipt::Lacking => {
                self.cut = self.cut.saturating_add(1);
                self.let_go(connection);
            }
        }
    }

    /// Looks again at listeners whose accepts failed, once it is time, and opens the spare descriptor again.
    pub fn retry(&mut self, registry: &Registry, now: Duration) {
        let Some(at) = self.retry else {
            return;
        };
        if now < at {
            return;
        }
        self.retry = None;
        if self.spare.is_none() {
            self.spare = registry.try_clone().ok();
        }
        for id in self.listeners.ids(self.alloc) {
            self.listen_again(registry, id);
        }
    }
}
