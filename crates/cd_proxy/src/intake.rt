ghost use Rattle.std.specs.Prelude.{◌≡◌, ℕ, ◌≤◌, ◌+◌, Bool, List, [], ◌++◌, length, drop, IfOk, OnErr, if◌then◌else◌, is_ok};
ghost use Rattle.std.specs.Vec.{vec_len};
ghost use Rattle.cd_proxy.specs.Intake.{ResponseInput as Input, IsLeft};
ghost use Rattle.cd_proxy.specs.Responses.{IsReading};
ghost use Rattle.cd_proxy.specs.Taking.{IsPause};

use crate::reading::Reading;
use crate::taking::{Known, Pause, Taken, no_search, take_response};
use cd_text::NoMemory;
use cd_wire::{Dropped, front_of, rest_from};
use std::alloc::Global;
use std::marker::Model;

/// The bytes of an upstream that have come and that no response has taken yet.
///
/// What was read of the response at their front is kept in its place: what is passed on of its head, and the data of its whole
/// chunks. So a body that comes in pieces is not read again and again, and the bytes that were read are dropped: never more lie in
/// the buffer than are left. Contracts see all the bytes.
///
///     dropped bytes    buffer:   bytes that were read   bytes that are left
///                                0                      start                 buffer.len()
#[derive(Drop)]
pub struct ResponseIntake {
    alloc: Global,
    // whether the request was HEAD
    to_head: bool,
    buffer: Vec<u8>,
    // how many bytes of the buffer were read: half of it at most
    start: usize,
    // what was read
    known: Known,
    // the bytes that `known` was read from
    dropped: Dropped,
}

impl Model for ResponseIntake {
    ghost use Rattle.std.specs.Prelude.{ℕ, List, ◌≤◌, ◌+◌, ◌++◌, length, drop};
    ghost use Rattle.cd_proxy.specs.Intake.{ResponseInput};

    ghost Value = { ResponseInput };

    ghost use Rattle.cd_proxy.specs.Taking.{IsKept};

    ghost view = { λ i. record { to_head = i.to_head; bytes = i.dropped.bytes ++ drop i.start i.buffer.items } };

    ghost invariant = { λ i. (i.start + i.start ≤ length i.buffer.items) × IsKept i.to_head i.dropped.bytes i.known };
}

// Drops the first bytes of a buffer, so many, where they are more than those that follow, and answers how many it still has.
fn drop_read(buffer: &mut Vec<u8>, read: usize) -> usize
    requires { read ≤ vec_len buffer.old }
    ensures half { result + result ≤ length buffer.new.items }
    ensures rest { drop result buffer.new.items ≡ drop read buffer.old.items }
{
    let left = buffer.len() - read;
    if read <= left {
        return read;
    }
    buffer.copy_within(read.., 0);
    buffer.truncate(left);
    0
}

// What `next` returns where no response is taken.
fn answer(pause: Pause) -> Result<Reading, NoMemory>
    ensures reading { (input : List ℕ) (ended head : Bool) → IsPause head input ended pause → IfOk result (IsReading input ended head) }
    ensures left { (input : Input) (ended : Bool) → IfOk result (IsLeft input ended input) }
{
    match pause {
        Pause::More => Ok(Reading::More),
        Pause::Bad => Ok(Reading::Bad),
        Pause::NoMemory => Err(NoMemory),
    }
}

impl ResponseIntake {
    /// No bytes. `to_head` says that the request was HEAD. It takes no memory.
    pub fn new(alloc: Global, to_head: bool) -> ResponseIntake
        ensures { result ≡ record { to_head = to_head; bytes = [] } }
    {
        ResponseIntake {
            alloc,
            to_head,
            buffer: Vec::new(alloc),
            start: 0,
            known: no_search(),
            dropped: Dropped::none(),
        }
    }

    /// Appends a piece of what came. At `NoMemory` nothing is changed.
    pub fn push(&mut self, piece: &[u8]) -> Result<(), NoMemory>
        ensures { self.new ≡ (if is_ok result then record self.old { bytes = self.old.bytes ++ piece.now } else self.old) }
    {
        Ok(self.buffer.extend_from_slice(piece)?)
    }

    /// Takes the response off the front (RFC 9112, sections 2 to 7). `ended` says that no more bytes come.
    ///
    /// Up to `MAX_INFORMATIONAL` informational responses before it are passed over. It is `Bad` only where the bytes have ended,
    /// or where no bytes can follow that make them begin with a response. Anything but a response leaves the bytes as they are,
    /// and so does `NoMemory`.
    pub fn next(&mut self, ended: bool) -> Result<Reading, NoMemory>
        ensures found { IfOk result (IsReading self.old.bytes ended self.old.to_head) }
        ensures left { IfOk result (IsLeft self.old ended self.new) }
        ensures err { OnErr result (self.new ≡ self.old) }
    {
        let rest = rest_from(self.buffer.as_slice(), self.start);
        match take_response(self.alloc, rest, ended, self.to_head, &mut self.known) {
            Taken::Response(answer, len) => {
                self.dropped = Dropped::none();
                self.start = drop_read(&mut self.buffer, self.start + len);
                Ok(Reading::Whole(answer))
            }
            Taken::None(pause, len) => {
                self.dropped = self.dropped.and(front_of(rest, len));
                self.start = drop_read(&mut self.buffer, self.start + len);
                answer(pause)
            }
        }
    }
}
