ghost use Rattle.std.specs.Prelude.{◌≡◌, ◌<◌, ◌≤◌, ◌++◌, List, ℕ, Bool, true, false, length, Option, option_map};
ghost use Rattle.cd_outside.specs.declared.taken.Taken.TheVariants as taken;
ghost use Rattle.cd_outside.specs.declared.given.Given.TheVariants as given;
ghost use Rattle.cd_outside.specs.declared.accepted.Accepted.TheVariants as accepted;
ghost use Rattle.cd_outside.specs.declared.past.Past.{Past as Told};
ghost use Rattle.cd_outside.specs.Counts.{Rises};
ghost use Rattle.cd_outside.specs.declared.received.Received.TheVariants as received;
ghost use Rattle.cd_outside.specs.Received.{IsReceived, after_receipt};
ghost use Rattle.cd_outside.specs.Taken.{IsTakenWithin};
ghost use Rattle.cd_outside.specs.Given.{IsGivenOf};
ghost use Rattle.cd_outside.specs.Past.{after_accept, after_read, after_put, after_line, after_keep, is_connection};
ghost use Rattle.cd_outside.specs.Since.{SinceAccept, CameWith};

use crate::limits::MAX_KEPT_BYTES;
use crate::{Accepted, Given, Key, Received, Taken};
use cd_text::{NoMemory, Text};
use cd_wire::Intake;
use std::sync::Wait;

/// Where connections come from, one after another. At most one is there at a time.
pub trait Lane {
    /// How often it has failed.
    ghost faults: { Self → ℕ };

    /// Whether a connection is there.
    ghost busy: { Self → Bool };

    /// What has happened so far, where it tells it.
    ghost past: { Self → Option Told };

    /// Of each connection that came, the serial under which a request had last begun on it before, 0 where none had, where it tells it.
    ghost since: { Self → Option (List ℕ) };

    /// Waits for the next connection. None may be there.
    fn accept(&mut self) -> Accepted
        requires { busy self.old ≡ false }
        ensures busy { busy self.new ≡ is_connection result }
        ensures past { past self.new ≡ option_map (after_accept result) (past self.old) }
        ensures since { SinceAccept (since self.old) result (since self.new) }
        ensures cause { Rises (faults self.old) (faults self.new) (result ≡ accepted.Failed) };

    /// Reads the next bytes of the connection into the front of `into`, which may not be empty.
    fn read(&mut self, into: &mut [u8]) -> Taken
        requires busy { busy self.old ≡ true }
        requires room { 0 < length into.old }
        ensures busy { busy self.new ≡ true }
        ensures bound { IsTakenWithin result (length into.new) }
        ensures past { past self.new ≡ option_map (after_read result into.new) (past self.old) }
        ensures since { since self.new ≡ since self.old }
        ensures cause { Rises (faults self.old) (faults self.new) (result ≡ taken.Failed) };

    /// Reads the next bytes of the connection behind those that an intake has. A lane that has read them before gives them with what it
    /// found in them. Else they are read into `room`, which may not be empty, and copied; what is left there has no meaning.
    fn receive(&mut self, into: &mut Intake, room: &mut [u8]) -> Received
        requires busy { busy self.old ≡ true }
        requires room { 0 < length room.old }
        ensures busy { busy self.new ≡ true }
        ensures past { (piece : List ℕ) × IsReceived result piece into.old into.new × (past self.new ≡ option_map (after_receipt result piece) (past self.old)) }
        ensures since { since self.new ≡ since self.old }
        ensures cause { Rises (faults self.old) (faults self.new) (result ≡ received.Failed) }
    {
        match self.read(room) {
            Taken::Bytes(count) => match into.push(&room[..count]) {
                Ok(()) => Received::Some,
                Err(NoMemory) => Received::Lacking,
            },
            Taken::End => Received::End,
            Taken::Failed => Received::Failed,
        }
    }

    /// Tells the lane that every byte that was read has been answered. A lane may then serve others while this connection is
    /// quiet.
    fn rest(&mut self)
        requires { busy self.old ≡ true }
        ensures busy { busy self.new ≡ true }
        ensures past { past self.new ≡ past self.old }
        ensures since { since self.new ≡ since self.old }
        ensures faults { faults self.new ≡ faults self.old }
    {}

    /// Puts the piece, which may not be empty, on the connection.
    fn write(&mut self, piece: &[u8]) -> Given
        requires busy { busy self.old ≡ true }
        requires some { 0 < length piece.now }
        ensures busy { busy self.new ≡ true }
        ensures past { (part : List ℕ) × IsGivenOf result part piece.now × (past self.new ≡ option_map (after_put part) (past self.old)) }
        ensures since { since self.new ≡ since self.old }
        ensures cause { Rises (faults self.old) (faults self.new) (result ≡ given.Failed) };

    /// Gives a line to the log writer of the key. At `Failed` it was not given.
    fn log(&mut self, key: &Key, line: &Text) -> Given
        requires { busy self.old ≡ true }
        ensures busy { busy self.new ≡ true }
        ensures past { past self.new ≡ option_map (after_line result key.now line.now) (past self.old) }
        ensures since { since self.new ≡ since self.old }
        ensures cause { Rises (faults self.old) (faults self.new) (result ≡ given.Failed) };

    /// Keeps the configuration of this serial, by its compact text, so that it outlasts the program. At `Failed` it may have
    /// been kept or not. It may wait for another lane that keeps one.
    fn keep<R: Wait>(&mut self, rt: &R, serial: u32, text: &[u8]) -> Given
        requires busy { busy self.old ≡ true }
        requires short { length text.now ≤ MAX_KEPT_BYTES }
        ensures busy { busy self.new ≡ true }
        ensures past { past self.new ≡ option_map (after_keep result serial text.now) (past self.old) }
        ensures since { since self.new ≡ since self.old }
        ensures cause { Rises (faults self.old) (faults self.new) (result ≡ given.Failed) };

    /// Tells the lane under which serial a request of the connection that is there has begun. `Failed` where one had begun on it under a
    /// later serial before it came to this lane. The request is then ended without an answer.
    fn seen(&mut self, serial: u32) -> Given
        requires busy { busy self.old ≡ true }
        ensures busy { busy self.new ≡ true }
        ensures past { past self.new ≡ past self.old }
        ensures since { since self.new ≡ since self.old }
        ensures none_later { result ≡ given.All → (least : ℕ) → CameWith (since self.old) least → least ≤ serial }
        ensures cause { Rises (faults self.old) (faults self.new) (result ≡ given.Failed) };

    /// Ends the connection. It cannot fail.
    fn end(&mut self)
        requires { busy self.old ≡ true }
        ensures busy { busy self.new ≡ false }
        ensures past { past self.new ≡ past self.old }
        ensures since { since self.new ≡ since self.old }
        ensures faults { faults self.new ≡ faults self.old };
}
