use crate::MAX_DRAIN_READS;
use std::io::{ErrorKind, Read};

/// What is found at a connection whose last answer was written.
pub enum Drained {
    /// The client has closed it, or it is broken.
    Over,
    /// All that has come so far was read.
    Empty,
    /// There may be more.
    More,
}

/// Reads what the client still sends. What is left unread when a connection is closed resets it, and a reset may reach the
/// client before the last answer does.
pub fn drain<S: Read>(stream: &mut S, room: &mut [u8]) -> Drained {
    for _ in 0..MAX_DRAIN_READS {
        match stream.read(room) {
            Ok(0) => return Drained::Over,
            Ok(_) => {}
            Err(error) => match error.kind() {
                ErrorKind::Interrupted => {}
                ErrorKind::WouldBlock => return Drained::Empty,
                _ => return Drained::Over,
            },
        }
    }
    Drained::More
}
