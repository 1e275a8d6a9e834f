ghost use Rattle.std.specs.Prelude.{◌≡◌, ◌==◌, ℕ, ◌≤◌, ◌+◌, Bool, List, [], ◌++◌, length, drop, IfOk, OnErr, if◌then◌else◌, is_ok};
ghost use Rattle.std.specs.Vec.{vec_len, vec_capacity};
ghost use Rattle.cd_wire.specs.Intake.{IsNext, IsLook, IsHandedOver};
ghost use Rattle.cd_wire.specs.Reading.{IsBodyKept};
ghost use Rattle.cd_wire.specs.Taking.{IsPause};

use crate::bodies::Body;
use crate::dropped::Dropped;
use crate::fault::WireFault;
use crate::limits::MAX_IDLE_BYTES;
use crate::request::Request;
use crate::taking::{Known, Pause, Taken, no_search, take_request};
use crate::texts::{front_of, rest_from};
use cd_text::NoMemory;
use std::alloc::Global;
use std::marker::Model;
use std::mem;

/// What `Intake::next` finds.
#[derive(Drop)]
pub enum Next {
    /// A whole request, which is taken off the front.
    Request(Request),
    /// No whole request yet. It comes only where the input has not ended.
    More,
    /// Nothing is left of an input that has ended.
    End,
    /// The input ended inside a body.
    Cut,
    /// What follows is refused, and so is all after it.
    Refused(WireFault),
}

/// What `Intake::look` finds.
#[derive(Clone, Copy, Debug, PartialEq, Eq)]
pub enum Look {
    /// A whole request: `next` gives it.
    Whole,
    /// No whole request yet. It comes only where the input has not ended.
    More,
    /// Nothing is left of an input that has ended.
    End,
    /// The input ended inside a body.
    Cut,
    /// What follows is refused, and so is all after it.
    Refused(WireFault),
}

/// The bytes of a connection that have come and that no request has taken yet.
///
/// What was read of the request at their front is kept in its place: the request so far, and the data of its whole chunks. So bytes
/// that come one by one are not read again and again, and an unfinished body in chunks takes memory for its data alone. The bytes
/// that were read are dropped: never more lie in the buffer than are left.
///
///     dropped bytes    buffer:   bytes that were read   bytes that are left
///                                0                      start                 buffer.len()
#[derive(Drop)]
pub struct Intake {
    alloc: Global,
    buffer: Vec<u8>,
    // how many bytes of the buffer were read: half of it at most
    start: usize,
    // what was read
    known: Known,
    // the bytes that `known` was read from, where they are no more left
    dropped: Dropped,
}

impl Model for Intake {
    ghost use Rattle.std.specs.Prelude.{ℕ, List, ◌≤◌, ◌+◌, ◌++◌, length, drop};
    ghost use Rattle.cd_wire.specs.Taking.{IsKept};

    ghost Value = { List ℕ };

    ghost view = { λ i. i.dropped.bytes ++ drop i.start i.buffer.items };

    ghost invariant = { λ i. (i.start + i.start ≤ length i.buffer.items)
        × IsKept i.dropped.bytes (drop i.start i.buffer.items) i.known };
}

// A buffer of no bytes, for which no memory is taken.
fn no_bytes(alloc: Global) -> Vec<u8>
    ensures items { result.items ≡ [] }
    ensures capacity { vec_capacity result ≡ 0 }
{
    Vec::new(alloc)
}

// Takes all bytes from a buffer, and its memory where that is more than one would keep for the next request.
fn empty(alloc: Global, buffer: &mut Vec<u8>)
    ensures { buffer.new.items ≡ [] }
{
    if buffer.capacity() > MAX_IDLE_BYTES {
        *buffer = no_bytes(alloc);
    } else {
        buffer.clear();
    }
}

// Drops the first bytes of a buffer, so many, where they are more than those that follow, and answers how many it still has.
fn drop_read(alloc: Global, buffer: &mut Vec<u8>, read: usize) -> usize
    requires { read ≤ vec_len buffer.old }
    ensures half { result + result ≤ length buffer.new.items }
    ensures rest { drop result buffer.new.items ≡ drop read buffer.old.items }
{
    let left = buffer.len() - read;
    if left == 0 {
        empty(alloc, buffer);
        return 0;
    }
    if read <= left {
        return read;
    }
    buffer.copy_within(read.., 0);
    buffer.truncate(left);
    0
}

// What `next` returns where no request is taken.
fn answer(pause: Pause) -> Result<Next, NoMemory>
    ensures { (input : List ℕ) (ended : Bool) → IsPause input ended pause → IfOk result (IsNext input ended input) }
{
    match pause {
        Pause::More => Ok(Next::More),
        Pause::End => Ok(Next::End),
        Pause::Cut => Ok(Next::Cut),
        Pause::Refused(fault) => Ok(Next::Refused(fault)),
        Pause::NoMemory => Err(NoMemory),
    }
}

// What `look` returns where there is no request.
fn seen(pause: Pause) -> Result<Look, NoMemory>
    ensures { (input : List ℕ) (ended : Bool) → IsPause input ended pause → IfOk result (IsLook input ended) }
{
    match pause {
        Pause::More => Ok(Look::More),
        Pause::End => Ok(Look::End),
        Pause::Cut => Ok(Look::Cut),
        Pause::Refused(fault) => Ok(Look::Refused(fault)),
        Pause::NoMemory => Err(NoMemory),
    }
}

impl Intake {
    /// No bytes. It takes no memory.
    pub fn new(alloc: Global) -> Intake
        ensures { result ≡ [] }
    {
        Intake {
            alloc,
            buffer: no_bytes(alloc),
            start: 0,
            known: Known::Search(no_search()),
            dropped: Dropped::none(),
        }
    }

    /// Whether every byte that came was taken by a request.
    pub fn is_empty(&self) -> bool
        ensures { result ≡ (length self.now == 0) }
    {
        match self.known {
            Known::Search(_) => self.start == self.buffer.len(),
            Known::Front(_) => false,
            Known::Whole(_) => false,
        }
    }

    /// Appends a piece of the input. At `NoMemory` nothing is changed.
    pub fn push(&mut self, piece: &[u8]) -> Result<(), NoMemory>
        ensures { self.new ≡ (if is_ok result then self.old ++ piece.now else self.old) }
    {
        Ok(self.buffer.extend_from_slice(piece)?)
    }

    /// Takes the next request off the front (RFC 9112, sections 2 to 6). `ended` says that no more bytes come.
    ///
    /// What is found depends on the bytes alone, and not on the pieces in which they came, but for one thing: where the input
    /// has not ended, bytes that can no longer become a head may still be `More`, until they are twice as many or
    /// `MAX_HEAD_BYTES`. Anything but a request leaves the bytes as they are, and so does `NoMemory`.
    pub fn next(&mut self, ended: bool) -> Result<Next, NoMemory>
        ensures found { IfOk result (IsNext self.old ended self.new) }
        ensures err { OnErr result (self.new ≡ self.old) }
    {
        let rest = rest_from(self.buffer.as_slice(), self.start);
        match take_request(self.alloc, rest, ended, &mut self.known) {
            Taken::Request(request, len) => {
                self.dropped = Dropped::none();
                self.start = drop_read(self.alloc, &mut self.buffer, self.start + len);
                Ok(Next::Request(request))
            }
            Taken::None(pause, len) => {
                self.dropped = self.dropped.and(front_of(rest, len));
                self.start = drop_read(self.alloc, &mut self.buffer, self.start + len);
                answer(pause)
            }
        }
    }

    /// Says what `next` would find, and takes nothing off. A request that it finds whole is kept as it was read, so that `next` gives it
    /// with no further work.
    pub fn look(&mut self, ended: bool) -> Result<Look, NoMemory>
        ensures found { IfOk result (IsLook self.old ended) }
        ensures same { self.new ≡ self.old }
    {
        if let Known::Whole(_) = self.known {
            return Ok(Look::Whole);
        }
        let rest = rest_from(self.buffer.as_slice(), self.start);
        match take_request(self.alloc, rest, ended, &mut self.known) {
            Taken::Request(request, len) => {
                self.dropped = self.dropped.and(front_of(rest, len));
                self.known = Known::Whole(request);
                self.start = drop_read(self.alloc, &mut self.buffer, self.start + len);
                Ok(Look::Whole)
            }
            Taken::None(pause, len) => {
                self.dropped = self.dropped.and(front_of(rest, len));
                self.start = drop_read(self.alloc, &mut self.buffer, self.start + len);
                seen(pause)
            }
        }
    }

    /// Hands the request that `look` has found whole over to an intake that has no bytes, and says so; or else all bytes. What was
    /// read of them goes with them, and none is copied.
    pub fn hand_over(&mut self, into: &mut Intake) -> bool
        requires { into.old ≡ [] }
        ensures { IsHandedOver result self.old self.new into.new }
    {
        if let Known::Whole(_) = self.known {
            into.known = mem::replace(&mut self.known, Known::Search(no_search()));
            into.dropped = mem::replace(&mut self.dropped, Dropped::none());
            true
        } else {
            mem::swap(self, into);
            false
        }
    }

    /// How many bytes it keeps of what has not come whole: those that were not read, and the data of chunks.
    pub fn kept(&self) -> usize
        ensures { result ≤ length self.now }
    {
        let left = self.buffer.len() - self.start;
        match &self.known {
            Known::Front(front) => left.saturating_add(data_of(&front.body)),
            Known::Search(_) => left,
            Known::Whole(_) => left,
        }
    }

    /// How much memory it takes for these, in bytes.
    pub fn memory(&self) -> usize {
        match &self.known {
            Known::Front(front) => self.buffer.capacity().saturating_add(data_of(&front.body)),
            Known::Search(_) => self.buffer.capacity(),
            Known::Whole(request) => self.buffer.capacity().saturating_add(request.body().len()),
        }
    }
}

// How much data it has so far.
fn data_of(body: &Body) -> usize
    ensures { (part : List ℕ) → IsBodyKept part body.now → result ≤ length part }
{
    match body {
        Body::Sized(_) => 0,
        Body::Chunks(found) => found.len(),
    }
}
