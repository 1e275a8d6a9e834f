ghost use Rattle.std.specs.Prelude.{◌≡◌, ◌<◌, ◌≤◌, [], length, take, drop, IfSome, IfNone};
ghost use Rattle.std.specs.Io.KnownBytes.{Appends};
ghost use Rattle.cd_tcp.specs.Got.{IsGotWithin, GetsBytes};

use crate::Reactor;
use crate::pacing::Pace;
use cd_text::rest_from;
use std::io;
use std::io::{ErrorKind, Read, Write};
use std::net::TcpStream;
use std::os::fd::{AsRawFd, RawFd};
use std::time::{Clock, Duration};

/// A stream whose reads and writes wait for a limited time, and then answer `WouldBlock` or `TimedOut`.
pub trait Patient: Read + Write {
    /// From now on reads and writes wait.
    fn wait(&self) -> io::Result<()>;

    /// From now on a read waits so long at most, which is more than no time.
    fn wait_at_most(&self, time: Duration) -> io::Result<()>;

    /// The number of its descriptor.
    fn descriptor(&self) -> RawFd;
}

impl Patient for TcpStream {
    fn wait(&self) -> io::Result<()> {
        self.set_nonblocking(false)
    }

    fn wait_at_most(&self, time: Duration) -> io::Result<()> {
        self.set_read_timeout(Some(time))
    }

    fn descriptor(&self) -> RawFd {
        self.as_raw_fd()
    }
}

/// What one read of a stream answers.
#[derive(Clone, Copy, Debug, PartialEq, Eq)]
pub enum Got {
    /// So many bytes were read, from one to the length of the room.
    Bytes(usize),
    /// Nothing is left.
    End,
    /// Nothing has come for as long as a read waits.
    Late,
    /// The read failed.
    Failed,
}

/// Reads once. A signal counts as no bytes in time. Of a stream that tells its bytes they are the next ones, the end is answered
/// only where none is left, and nothing is lost by another answer.
#[tactic(auto, using(crate::proofs::KeptBytes::kept_consumes))]
pub fn read_once<S: Read>(stream: &mut S, into: &mut [u8]) -> Got
    requires { 0 < length into.old }
    ensures bound { IsGotWithin result (length into.new) }
    ensures bytes { GetsBytes result (S.remaining stream.old) (S.remaining stream.new) into.new }
{
    match stream.read(into) {
        Ok(0) => Got::End,
        Ok(count) => Got::Bytes(count),
        Err(error) => match error.kind() {
            ErrorKind::Interrupted | ErrorKind::WouldBlock | ErrorKind::TimedOut => Got::Late,
            _ => Got::Failed,
        },
    }
}

/// Writes the piece, and says how many of its bytes were written, from its front: all of them, unless the write failed. Of a stream
/// that tells its bytes, these are then its last ones. A client that takes it too slowly is given up (pacing.rt). The clock is read
/// only where the first write was not enough.
#[tactic(auto, using(cd_stdio::proofs::GivenParts::given_still, cd_stdio::proofs::GivenParts::nothing_given))]
pub fn write_whole<R: Clock, S: Patient>(
    rt: &R,
    reactor: &Reactor,
    stream: &mut S,
    piece: &[u8],
) -> usize
    ensures bound { result ≤ length piece.now }
    ensures bytes { Appends (S.contents stream.old) (S.contents stream.new) (take result piece.now) }
{
    let mut count = 0;
    let mut pace = Pace::new();
    for _ in 0..u64::MAX {
        let left = rest_from(piece, count);
        if left.is_empty() {
            return count;
        }
        match write_turn(rt, reactor, stream, left, &mut pace) {
            Some(more) => count += more,
            None => return count,
        }
    }
    count
}

// Writes once, where the client has time left, and says how many bytes. After a first write that was not enough the others wait.
fn write_turn<R: Clock, S: Patient>(
    rt: &R,
    reactor: &Reactor,
    stream: &mut S,
    piece: &[u8],
    pace: &mut Pace,
) -> Option<usize>
    requires { 0 < length piece.now }
    ensures bound { IfSome result (λ count. count ≤ length piece.now) }
    ensures bytes { IfSome result (λ count. Appends (S.contents stream.old) (S.contents stream.new) (take count piece.now)) }
    ensures none { IfNone result (Appends (S.contents stream.old) (S.contents stream.new) []) }
{
    if pace.is_over(reactor.is_full()) {
        return None;
    }
    let from = pace.begin(rt);
    let count = write_once(stream, piece)?;
    if count < piece.len() {
        if from.is_none() {
            let _ = stream.wait();
        }
        pace.count(rt, from, count);
    }
    Some(count)
}

// Writes once, and says how many bytes: none after a signal, and where none were taken for as long as a write waits.
#[tactic(auto, using(cd_stdio::proofs::GivenParts::kept_given))]
fn write_once<S: Write>(stream: &mut S, piece: &[u8]) -> Option<usize>
    requires { 0 < length piece.now }
    ensures bound { IfSome result (λ count. count ≤ length piece.now) }
    ensures bytes { IfSome result (λ count. Appends (S.contents stream.old) (S.contents stream.new) (take count piece.now)) }
    ensures none { IfNone result (Appends (S.contents stream.old) (S.contents stream.new) []) }
{
    match stream.write(piece) {
        Ok(0) => None,
        Ok(count) => Some(count),
        Err(error) => match error.kind() {
            ErrorKind::Interrupted | ErrorKind::WouldBlock | ErrorKind::TimedOut => Some(0),
            _ => None,
        },
    }
}
