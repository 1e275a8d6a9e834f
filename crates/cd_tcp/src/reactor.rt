use crate::clock::now;
use crate::connection::Connection;
use crate::sockets::{Sockets, unwatch};
use crate::tokens::Subject;
use crate::turns::Turns;
use crate::{LINGER_SECONDS, MAX_TAKES, Tries};
use cd_outside::Address;
use cd_stdio::Writers;
use mio::{Events, Poll, Registry, Waker};
use std::alloc::Global;
use std::io::{ErrorKind, Stderr, Stdout};
use std::net::{Net, TcpListener, TcpStream};
use std::os::fd::RawFd;
use std::sync::atomic::{AtomicU64, Ordering};
use std::sync::{Mutex, Wait};
use std::time::{Clock, Duration};
use std::{io, thread};

// How many events one wait gives.
const MAX_EVENTS: usize = 64;

// The poll, which one lane at a time sleeps in.
#[derive(Drop)]
struct Poller {
    poll: Poll,
    events: Events,
    swept: Duration,
}

/// What lanes and fixtures share. One lane at a time leads: it waits for all, takes the first connection that is ready, and lets
/// the lane lead that came last.
#[derive(Drop)]
pub struct Reactor {
    registry: Registry,
    waker: Waker,
    turns: Turns,
    poller: Mutex<Poller>,
    sockets: Mutex<Sockets>,
    // How many lanes wait for a connection.
    free: AtomicU64,
    // How many connections were handed to lanes since the last poll.
    takes: AtomicU64,
    pub(crate) writers: Writers<Stdout, Stderr>,
}

/// What comes to a lane that waits.
pub enum Next {
    Connection(Connection<TcpStream>),
    Shut,
    Failed(io::Error),
}

// What a poll came to.
#[derive(Drop)]
enum Polled {
    // Connections were accepted, or none waits.
    Well,
    // Nothing was accepted, and nothing failed.
    Other,
    // An accept failed.
    Failed(io::Error),
    // The poll failed.
    Broken(io::Error),
}

impl Reactor {
    /// A reactor where nothing is open. It answers an error where the system gives no poll, or for want of memory.
    pub fn new<R: Net>(
        net: &R,
        alloc: Global,
        output: Stdout,
        error: Stderr,
    ) -> io::Result<Reactor> {
        let poll = Poll::new(net)?;
        let registry = poll.registry().try_clone()?;
        let spare = poll.registry().try_clone()?;
        let waker = Waker::new(&registry, Subject::Waker.token())?;
        let events = Events::with_capacity(alloc, MAX_EVENTS)?;
        let sockets = Sockets::new(alloc, spare)?;
        let poller = Poller {
            poll,
            events,
            swept: Duration::ZERO,
        };
        Ok(Reactor {
            registry,
            waker,
            turns: Turns::new(),
            poller: Mutex::new(poller),
            sockets: Mutex::new(sockets),
            free: AtomicU64::new(0),
            takes: AtomicU64::new(0),
            writers: Writers::new(alloc, output, error),
        })
    }

    pub(crate) fn open<R: Wait>(
        &self,
        rt: &R,
        listeners: Vec<TcpListener>,
        address: &Address,
    ) -> io::Result<()> {
        self.sockets
            .lock(rt)
            .open(&self.registry, listeners, address)
    }

    pub(crate) fn close<R: Wait>(&self, rt: &R, address: &Address) {
        let _closed = self.close_kept(rt, address);
    }

    fn close_kept<R: Wait>(&self, rt: &R, address: &Address) -> Vec<TcpStream> {
        let mut sockets = self.sockets.lock(rt);
        sockets.close(address);
        sockets.take_closed()
    }

    pub(crate) fn shut<R: Wait>(&self, rt: &R) {
        let _closed = self.shut_kept(rt);
        let _ = self.waker.wake();
    }

    fn shut_kept<R: Wait>(&self, rt: &R) -> Vec<TcpStream> {
        let mut sockets = self.sockets.lock(rt);
        sockets.shut();
        sockets.take_closed()
    }

    /// How many connections were let go for want of memory before a lane had them. It stays at 2^64 - 1.
    pub fn cut<R: Wait>(&self, rt: &R) -> u64 {
        self.sockets.lock(rt).cut
    }

    pub(crate) fn count_cut<R: Wait>(&self, rt: &R) {
        let mut sockets = self.sockets.lock(rt);
        sockets.cut = sockets.cut.saturating_add(1);
    }

    /// Whether each lane has a connection.
    pub fn is_full(&self) -> bool {
        self.free.load(Ordering::SeqCst) == 0
    }

    /// Has the poll report no more of a connection, since a lane reads it.
    pub(crate) fn unwatch(&self, fd: RawFd) {
        unwatch(&self.registry, fd);
    }

    pub(crate) fn park<R: Wait + Clock>(&self, rt: &R, connection: Connection<TcpStream>) {
        let _closed = self.park_in(rt, connection);
    }

    fn park_in<R: Wait + Clock>(
        &self,
        rt: &R,
        connection: Connection<TcpStream>,
    ) -> Vec<TcpStream> {
        let now = now(rt);
        let mut sockets = self.sockets.lock(rt);
        sockets.park(&self.registry, connection, now);
        sockets.take_closed()
    }

    pub(crate) fn linger<R: Wait + Clock>(&self, rt: &R, connection: Connection<TcpStream>) {
        let _closed = self.linger_in(rt, connection);
    }

    fn linger_in<R: Wait + Clock>(
        &self,
        rt: &R,
        connection: Connection<TcpStream>,
    ) -> Vec<TcpStream> {
        let now = now(rt);
        let mut sockets = self.sockets.lock(rt);
        sockets.linger(&self.registry, connection, now);
        sockets.take_closed()
    }

    /// Waits for the next connection, and takes back one that this lane had. `since` becomes the time, where the lane has to wait.
    pub(crate) fn next<R: Wait + Clock>(
        &self,
        rt: &R,
        since: &mut Duration,
        back: Option<Connection<TcpStream>>,
    ) -> Next {
        self.look_about(rt);
        if back.is_none()
            && let Some(next) = self.at_once(rt)
        {
            return next;
        }
        self.free.fetch_add(1, Ordering::SeqCst);
        let next = self.lead(rt, back);
        self.free.fetch_sub(1, Ordering::SeqCst);
        *since = now(rt);
        next
    }

    // Looks what else has come, where many connections were handed out since that was done, and no lane does so.
    fn look_about<R: Wait + Clock>(&self, rt: &R) {
        if self.takes.load(Ordering::SeqCst) >= MAX_TAKES as u64
            && let Some(mut poller) = self.poller.try_lock()
        {
            let _ = self.poll(rt, &mut poller, Duration::ZERO);
        }
    }

    // What can be said without waiting. After `shut` the last answers may still have to reach their clients.
    fn at_once<R: Wait>(&self, rt: &R) -> Option<Next> {
        let mut sockets = self.sockets.lock(rt);
        if sockets.is_shut() {
            return if sockets.has_leaving() {
                None
            } else {
                Some(Next::Shut)
            };
        }
        let connection = sockets.next()?;
        self.takes.fetch_add(1, Ordering::SeqCst);
        Some(Next::Connection(connection))
    }

    // Waits until this lane leads, and leads. It has its place before it gives a connection back: so it is the one that is called when
    // that is taken, and mostly no other lane is needed.
    fn lead<R: Wait + Clock>(&self, rt: &R, back: Option<Connection<TcpStream>>) -> Next {
        let place = self.turns.join(rt);
        if let Some(connection) = back {
            self.give_back(rt, connection);
        }
        if let Some(place) = place {
            self.turns.sleep(rt, place);
        }
        let next = self.first(rt);
        self.turns.end(rt);
        next
    }

    // Gives a connection back, and wakes the lane that leads where one is ready for it.
    fn give_back<R: Wait + Clock>(&self, rt: &R, connection: Connection<TcpStream>) {
        self.park(rt, connection);
        if self.sockets.lock(rt).has_ready() {
            let _ = self.waker.wake();
        }
    }

    // The first connection that is ready, or why there is none.
    fn first<R: Wait + Clock>(&self, rt: &R) -> Next {
        let mut poller = self.poller.lock(rt);
        let mut tries = Tries::new();
        for _ in rt.forever() {
            if let Some(next) = self.at_once(rt) {
                return next;
            }
            let time = self.time_to_wait(rt);
            match self.poll(rt, &mut poller, time) {
                Polled::Well => tries = Tries::new(),
                Polled::Other => {}
                Polled::Failed(error) => {
                    self.retry_after(rt, tries.pause);
                    if tries.fail() {
                        return Next::Failed(error);
                    }
                }
                Polled::Broken(error) => {
                    thread::sleep(rt, Duration::from_millis(tries.pause));
                    if tries.fail() {
                        return Next::Failed(error);
                    }
                }
            }
        }
        unreachable!()
    }

    // How long a poll waits: until what has lingered is let go, or a listener is looked at again.
    fn time_to_wait<R: Wait + Clock>(&self, rt: &R) -> Duration {
        let most = Duration::from_secs(LINGER_SECONDS);
        let retry = self.sockets.lock(rt).retry;
        match retry {
            Some(at) => at.saturating_sub(now(rt)).min(most),
            None => most,
        }
    }

    // Has the listeners looked at again after so many milliseconds.
    fn retry_after<R: Wait + Clock>(&self, rt: &R, millis: u64) {
        let at = now(rt).saturating_add(Duration::from_millis(millis));
        self.sockets.lock(rt).retry = Some(at);
    }

    // Waits so long at most for something to happen, and sees to it.
    fn poll<R: Wait + Clock>(&self, rt: &R, poller: &mut Poller, time: Duration) -> Polled {
        self.takes.store(0, Ordering::SeqCst);
        if let Err(error) = poller.poll.poll(&mut poller.events, Some(time)) {
            return if error.kind() == ErrorKind::Interrupted {
                Polled::Other
            } else {
                Polled::Broken(error)
            };
        }
        let _closed = self.see_to(rt, poller);
        self.polled(rt)
    }

    // Sees to what has happened, and says which connections are to be closed.
    fn see_to<R: Wait + Clock>(&self, rt: &R, poller: &mut Poller) -> Vec<TcpStream> {
        let now = now(rt);
        let mut sockets = self.sockets.lock(rt);
        let sockets = &mut *sockets;
        for event in poller.events.iter() {
            let subject = Subject::of(event.token());
            sockets.on_event(&self.registry, subject, event.is_read_closed(), now);
        }
        sockets.retry(&self.registry, now);
        if now.saturating_sub(poller.swept) >= Duration::from_secs(LINGER_SECONDS) {
            poller.swept = now;
            sockets.expire(now);
        }
        sockets.take_closed()
    }

    // What the accepts of a poll came to.
    fn polled<R: Wait>(&self, rt: &R) -> Polled {
        let accepts = self.sockets.lock(rt).take_accepts();
        match accepts.fault {
            Some(error) => Polled::Failed(error),
            None if accepts.any => Polled::Well,
            None => Polled::Other,
        }
    }
}
