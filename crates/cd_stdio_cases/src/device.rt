//! Devices that signals interrupt, that fail in the middle, that fail when they are flushed, and that would wait.
ghost use Rattle.std.specs.Prelude.{◌≤◌, IfOk, None};

use cd_outside::{Fixtures, Key, Opened};
use cd_stdio::{Explains, TakesNow};
use std::io;
use std::io::{ErrorKind, Read, Write};

/// A reader and a writer of which the second call moves up to three bytes. The first and the third are interrupted, and all later
/// ones fail.
#[derive(Drop)]
pub struct Device {
    calls: u32,
}

impl Device {
    /// A device that was not called yet.
    pub fn new() -> Device {
        Device { calls: 0 }
    }

    fn call(&mut self, room: usize) -> io::Result<usize>
        ensures { IfOk result (λ count. count ≤ room) }
    {
        let number = self.calls;
        self.calls = number.saturating_add(1);
        match number {
            1 => Ok(room.min(3)),
            0 | 2 => Err(io::Error::from(ErrorKind::Interrupted)),
            _ => Err(io::Error::from(ErrorKind::ConnectionReset)),
        }
    }
}

impl Read for Device {
    fn read(&mut self, buf: &mut [u8]) -> io::Result<usize> {
        self.call(buf.len())
    }
}

impl Write for Device {
    fn write(&mut self, buf: &[u8]) -> io::Result<usize> {
        self.call(buf.len())
    }

    fn flush(&mut self) -> io::Result<()> {
        Ok(())
    }
}

/// A writer that takes all that it is given, and fails when it is flushed.
#[derive(Drop)]
pub struct Unflushed;

impl Write for Unflushed {
    fn write(&mut self, buf: &[u8]) -> io::Result<usize> {
        Ok(buf.len())
    }

    fn flush(&mut self) -> io::Result<()> {
        Err(io::Error::from(ErrorKind::ConnectionReset))
    }
}

/// A writer that would wait so many times, when it is asked.
#[derive(Drop)]
pub struct Busy<W> {
    times: u32,
    writer: W,
}

impl<W: Write> Busy<W> {
    /// This writer, which would wait so many times.
    pub fn new(times: u32, writer: W) -> Busy<W> {
        Busy { times, writer }
    }
}

impl<W: Write> TakesNow for Busy<W> {
    fn takes_now(&mut self) -> bool {
        let ready = self.times == 0;
        self.times = self.times.saturating_sub(1);
        ready
    }
}

impl<W: Write> Write for Busy<W> {
    fn write(&mut self, buf: &[u8]) -> io::Result<usize> {
        self.writer.write(buf)
    }

    fn flush(&mut self) -> io::Result<()> {
        self.writer.flush()
    }
}

/// Fixtures that open the listening addresses of one port, and for all else have no permission.
#[derive(Drop)]
pub struct OnePort {
    port: u16,
    faults: u64,
}

impl OnePort {
    /// Fixtures that open this port.
    pub fn new(port: u16) -> OnePort {
        OnePort { port, faults: 0 }
    }
}

impl Explains for OnePort {
    fn cause(&self) -> Option<io::Error> {
        Some(io::Error::from(ErrorKind::PermissionDenied))
    }
}

impl Fixtures for OnePort {
    ghost faults = { λ fixtures. fixtures.faults };

    ghost calls = { λ _. None };

    fn open_key(&mut self, key: &Key) -> Opened {
        match key {
            Key::Listen(address) if address.port == self.port => Opened::Ready,
            _ => {
                self.faults = self.faults.saturating_add(1);
                Opened::Failed
            }
        }
    }

    fn close_key(&mut self, _key: &Key) {}

    fn shut(&mut self) {}
}
