use crate::stream::{Got, read_once};
use crate::waiting::Waiting;
use cd_outside::Address;
use std::io::Read;

/// A connection, where it came to, and what has come of it.
#[derive(Drop)]
pub struct Connection<S> {
    pub stream: S,
    /// The address of the listener that it came to.
    pub address: Address,
    /// What has come and no lane has read.
    pub waiting: Waiting,
    /// Whether its reads and writes wait for a limited time. Those of a connection that was just accepted don't wait.
    pub waits: bool,
    /// Whether the poll watches it.
    pub watched: bool,
    /// Whether its last read gave less than there was room for, so that nothing was left unread then.
    pub drained: bool,
}

/// What comes of one read of a connection that has no lane.
pub enum Receipt {
    /// Bytes or its end, or nothing.
    Some,
    /// It is over: it is broken, or the client has ended it and left nothing.
    Over,
    /// Out of memory.
    Lacking,
}

impl<S: Read> Connection<S> {
    /// Reads once, and keeps what has come. `ended` says that the client sends no more than what is there to be read.
    pub fn receive(&mut self, room: &mut [u8], ended: bool) -> Receipt {
        let len = room.len();
        if len == 0 {
            return Receipt::Lacking;
        }
        match read_once(&mut self.stream, room) {
            Got::Bytes(count) => self.add(&room[..count], count < len, ended),
            Got::Late => Receipt::Some,
            Got::End => self.end(),
            Got::Failed => Receipt::Over,
        }
    }

    // Keeps a piece. `drained` says that it was all that was there.
    fn add(&mut self, piece: &[u8], drained: bool, ended: bool) -> Receipt {
        self.drained = drained;
        if self.waiting.push(piece).is_err() {
            return Receipt::Lacking;
        }
        self.waiting.ended = drained && ended;
        self.look()
    }

    // Looks what has come of its next request.
    fn look(&mut self) -> Receipt {
        match self.waiting.look() {
            Ok(()) => Receipt::Some,
            Err(_) => Receipt::Lacking,
        }
    }

    fn end(&mut self) -> Receipt {
        self.drained = true;
        self.waiting.ended = true;
        if self.waiting.is_empty() {
            Receipt::Over
        } else {
            self.look()
        }
    }
}
