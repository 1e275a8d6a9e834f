use crate::TakesNow;
use mio::unix::SourceFd;
use mio::{Events, Interest, Poll, Token};
use std::alloc::Global;
use std::io;
use std::io::{ErrorKind, Write};
use std::net::Net;
use std::os::fd::AsRawFd;
use std::time::Duration;

/// A stream of the system that is looked at before it is written to.
#[derive(Drop)]
pub struct Watched<W> {
    poll: Poll,
    events: Events,
    stream: W,
}

impl<W: Write + AsRawFd + Drop> Watched<W> {
    /// This stream. It answers an error where the system gives no poll, or for want of memory.
    pub fn new<R: Net>(net: &R, alloc: Global, stream: W) -> io::Result<Watched<W>> {
        Ok(Watched {
            poll: Poll::new(net)?,
            events: Events::with_capacity(alloc, 1)?,
            stream,
        })
    }

    // Whether the poll says that the stream takes bytes, and that somebody may still read them.
    fn is_ready(&mut self) -> bool {
        if self
            .poll
            .poll(&mut self.events, Some(Duration::ZERO))
            .is_err()
        {
            return false;
        }
        self.events
            .iter()
            .any(|event| event.is_writable() && !event.is_error())
    }
}

impl<W: Write + AsRawFd + Drop> TakesNow for Watched<W> {
    /// A file can't be watched, and takes bytes at any time.
    fn takes_now(&mut self) -> bool {
        let fd = self.stream.as_raw_fd();
        let interest = Interest::WRITABLE;
        if let Err(error) = self
            .poll
            .registry()
            .register(&mut SourceFd(&fd), Token(0), interest)
        {
            return error.kind() == ErrorKind::PermissionDenied;
        }
        let ready = self.is_ready();
        let _ = self.poll.registry().deregister(&mut SourceFd(&fd));
        ready
    }
}

impl<W: Write> Write for Watched<W> {
    fn write(&mut self, buf: &[u8]) -> io::Result<usize> {
        self.stream.write(buf)
    }

    fn flush(&mut self) -> io::Result<()> {
        self.stream.flush()
    }
}
