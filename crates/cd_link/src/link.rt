//! A connection, with what has come of it and what is still to be sent.
ghost use Rattle.std.specs.Prelude.{◌≡◌, ◌==◌, ◌++◌, ◌<◌, ◌≤◌, ◌↔◌, List as Values, ℕ, length, take, max, [], false, nat_le, IsTrue, IsFalse, IfOk};
ghost use Rattle.cd_outside.specs.declared.accepted.Accepted.TheVariants.{Connection as Accepts};
ghost use Rattle.cd_outside.specs.declared.given.Given.TheVariants as given;
ghost use Rattle.cd_outside.specs.declared.received.Received.TheVariants as received;
ghost use Rattle.cd_outside.specs.declared.taken.Taken.TheVariants as taken;
ghost use Rattle.cd_outside.specs.Past.{after_accept, after_put, after_line, after_keep};
ghost use Rattle.cd_outside.specs.Received.{after_receipt};
ghost use Rattle.cd_wire.specs.Intake.{IsLook};
ghost use Rattle.cd_link.specs.declared.link.Flushed.TheVariants as flushed;
ghost use Rattle.cd_link.specs.Life.{taken_of, put_of};
ghost use Rattle.cd_link.specs.Links.{AddsAlike, IsWritten, Receives, IsFilled, IsForLane, IsSettled};

use crate::living::{
    has_begun, has_ended, has_handed, has_kept, has_lacked, has_logged, has_put, unlived,
};
use crate::stretches::{Adds, Bytes};
use crate::{Got, Sent, Stream, Told, Unsent};
use cd_outside::{Address, Given, Key, Past, Received};
use cd_text::{NoMemory, Octets, Text, rest_from};
use cd_wire::{Intake, Look};
use std::alloc::Global;

/// How many bytes may wait to be sent, at most, where a piece is written: 16 MiB.
pub const MAX_UNSENT_BYTES: usize = 16_777_216;

/// A connection. It waits for nobody: what has come is kept until a lane takes it, and what is written until its stream takes it.
#[derive(Drop)]
pub struct Link<S> {
    stream: S,
    // what has come and no lane has taken
    inbound: Intake,
    // whether nothing more comes
    ended: bool,
    // what was written and the stream has not taken
    unsent: Unsent,
    // whether a send has failed
    broken: bool,
    // whether further stretches may follow
    goes_on: bool,
    // under which serial a request has last begun on it, 0 where none has
    serial: u32,
    // its stretches, as one lane would report them that had served them all
    pub(crate) life: Told<Past>,
    // all bytes that came and were kept
    given: Told<Octets>,
    // all bytes that the stream took
    sent: Told<Octets>,
    /// What lanes have taken, and then what is kept for them, are the bytes that came.
    pub ghost read: { taken_of life.value.connections ++ inbound ≡ given.value },
    /// What the stream took, and then what is still to be sent, are the bytes that were written.
    pub ghost written: { sent.value ++ unsent ≡ put_of life.value.connections },
}

/// What comes of one receive.
#[derive(Clone, Copy, Debug, PartialEq, Eq)]
pub enum Filled {
    /// Bytes came.
    Some,
    /// Nothing is there yet.
    Later,
    /// The other side sends no more.
    End,
    /// The stream has failed: nothing more comes.
    Failed,
    /// Out of memory: what was received is lost, and nothing more is received.
    Lacking,
}

/// What comes of one flush.
#[derive(Clone, Copy, Debug, PartialEq, Eq)]
pub enum Flushed {
    /// All was sent.
    Done,
    /// The other side takes no more now.
    Later,
    /// The stream has failed: nothing more is sent.
    Failed,
}

impl<S> Link<S> {
    /// A connection of which nothing has come and to which nothing was sent. It takes no memory.
    pub fn new(alloc: Global, stream: S) -> Link<S>
        ensures stream { result.stream ≡ stream }
        ensures inbound { result.inbound ≡ [] }
        ensures unsent { result.unsent ≡ [] }
        ensures life { result.life.value.connections ≡ [] }
        ensures given { result.given.value ≡ [] }
        ensures sent { result.sent.value ≡ [] }
        ensures serial { result.serial ≡ 0 }
    {
        Link {
            stream,
            inbound: Intake::new(alloc),
            ended: false,
            unsent: Unsent::new(alloc),
            broken: false,
            goes_on: true,
            serial: 0,
            life: unlived(alloc),
            given: Told::of(&Octets::new(alloc)),
            sent: Told::of(&Octets::new(alloc)),
        }
    }

    /// The stream, to look at.
    pub fn stream(&self) -> &S
        ensures { result.now ≡ self.now.stream }
    {
        &self.stream
    }

    /// Whether nothing more comes.
    pub fn is_ended(&self) -> bool
        ensures { result ≡ self.now.ended }
    {
        self.ended
    }

    /// Whether a send has failed, so that nothing more is sent.
    pub fn is_broken(&self) -> bool
        ensures { result ≡ self.now.broken }
    {
        self.broken
    }

    /// Whether further stretches may follow: none has begun, or the last one has ended where every byte that a lane has taken was answered.
    /// Else the connection is over once all is sent.
    pub fn goes_on(&self) -> bool
        ensures { result ≡ self.now.goes_on }
    {
        self.goes_on
    }

    /// The serial under which a request has last begun on it, in whichever stretch, 0 where none has.
    pub fn serial(&self) -> u32
        ensures { result ≡ self.now.serial }
    {
        self.serial
    }

    /// How many bytes wait to be sent.
    pub fn unsent(&self) -> usize
        ensures { result ≡ length self.now.unsent }
    {
        self.unsent.len()
    }

    /// Whether all that has come was taken by lanes.
    pub fn is_empty(&self) -> bool
        ensures { result ≡ (length self.now.inbound == 0) }
    {
        self.inbound.is_empty()
    }

    /// How many bytes are kept of a request that has not come whole.
    pub fn kept(&self) -> usize
        ensures { result ≤ length self.now.inbound }
    {
        self.inbound.kept()
    }

    /// How much memory it takes for what has come and for what is to be sent, in bytes.
    pub fn memory(&self) -> usize {
        self.inbound.memory().saturating_add(self.unsent.len())
    }

    /// Says what of the next request has come, as `Intake::look` finds it. Nothing is taken.
    pub fn look(&mut self) -> Result<Look, NoMemory>
        ensures found { IfOk result (IsLook self.old.inbound self.old.ended) }
        ensures inbound { self.new.inbound ≡ self.old.inbound }
        ensures ended { self.new.ended ≡ self.old.ended }
        ensures unsent { self.new.unsent ≡ self.old.unsent }
        ensures life { self.new.life.value ≡ self.old.life.value }
        ensures stream { self.new.stream ≡ self.old.stream }
        ensures given { self.new.given.value ≡ self.old.given.value }
        ensures sent { self.new.sent.value ≡ self.old.sent.value }
        ensures serial { self.new.serial ≡ self.old.serial }
    {
        self.inbound.look(self.ended)
    }

    /// A stretch begins, of a request that came to this address.
    pub fn begin(&mut self, address: &Address)
        ensures life { self.new.life.value ≡ after_accept (Accepts address.now) self.old.life.value }
        ensures begun { 0 < length self.new.life.value.connections }
        ensures inbound { self.new.inbound ≡ self.old.inbound }
        ensures unsent { self.new.unsent ≡ self.old.unsent }
        ensures stream { self.new.stream ≡ self.old.stream }
        ensures given { self.new.given.value ≡ self.old.given.value }
        ensures sent { self.new.sent.value ≡ self.old.sent.value }
        ensures goes_on { self.new.goes_on ≡ false }
        ensures serial { self.new.serial ≡ self.old.serial }
    {
        self.goes_on = false;
        self.life = has_begun(&self.life, address);
    }

    /// A request begins on it under this serial. It says whether none has begun under a later one. Where one has, nothing changes.
    pub fn seen(&mut self, serial: u32) -> bool
        ensures result { result ≡ nat_le self.old.serial serial }
        ensures same { self.new ≡ record self.old { serial = max self.old.serial serial } }
    {
        let in_order = self.serial <= serial;
        self.serial = self.serial.max(serial);
        in_order
    }

    /// Hands the next request to an intake that has no bytes, as it was read, or all bytes where it will not come whole. Where it may
    /// still come, and after an answer that is not wholly sent, the end is answered: a lane is done with this connection for now. An
    /// intake that has bytes gets none: where there are some, that is a failure.
    pub fn receive(&mut self, into: &mut Intake) -> Received
        requires begun { 0 < length self.old.life.value.connections }
        ensures life { Receives result into.old into.new self.old.life.value self.new.life.value }
        ensures begun { 0 < length self.new.life.value.connections }
        ensures due { result ≡ received.Some → IsForLane self.old.inbound self.old.ended into.new }
        ensures goes_on { IsTrue self.new.goes_on → (result ≡ received.End) × (into.new ≡ []) }
        ensures stream { self.new.stream ≡ self.old.stream }
        ensures unsent { self.new.unsent ≡ self.old.unsent }
        ensures given { self.new.given.value ≡ self.old.given.value }
        ensures sent { self.new.sent.value ≡ self.old.sent.value }
        ensures serial { self.new.serial ≡ self.old.serial }
    {
        self.goes_on = false;
        if self.inbound.is_empty() || !self.unsent.is_empty() {
            return self.end_quietly(into.is_empty());
        }
        if !into.is_empty() {
            return Received::Failed;
        }
        let Ok(found) = self.inbound.look(self.ended) else {
            self.life = has_lacked(&self.life);
            return Received::Lacking;
        };
        if is_settled(found) {
            self.hand(found, into)
        } else {
            self.end_quietly(true)
        }
    }

    // Answers the end. `answered` says that every byte which a lane has taken was answered.
    fn end_quietly(&mut self, answered: bool) -> Received
        requires begun { 0 < length self.old.life.value.connections }
        ensures result { result ≡ received.End }
        ensures life { self.new.life.value ≡ after_receipt received.End [] self.old.life.value }
        ensures begun { 0 < length self.new.life.value.connections }
        ensures goes_on { self.new.goes_on ≡ answered }
        ensures inbound { self.new.inbound ≡ self.old.inbound }
        ensures stream { self.new.stream ≡ self.old.stream }
        ensures unsent { self.new.unsent ≡ self.old.unsent }
        ensures given { self.new.given.value ≡ self.old.given.value }
        ensures sent { self.new.sent.value ≡ self.old.sent.value }
        ensures serial { self.new.serial ≡ self.old.serial }
    {
        self.goes_on = answered;
        self.life = has_ended(&self.life);
        Received::End
    }

    // Hands over what `look` has found.
    fn hand(&mut self, found: Look, into: &mut Intake) -> Received
        requires begun { 0 < length self.old.life.value.connections }
        requires some { 0 < length self.old.inbound }
        requires none { into.old ≡ [] }
        requires found { IsLook self.old.inbound self.old.ended found }
        requires settled { IsSettled found }
        ensures result { result ≡ received.Some }
        ensures life { Receives received.Some into.old into.new self.old.life.value self.new.life.value }
        ensures begun { 0 < length self.new.life.value.connections }
        ensures due { IsForLane self.old.inbound self.old.ended into.new }
        ensures goes_on { self.new.goes_on ≡ self.old.goes_on }
        ensures stream { self.new.stream ≡ self.old.stream }
        ensures unsent { self.new.unsent ≡ self.old.unsent }
        ensures given { self.new.given.value ≡ self.old.given.value }
        ensures sent { self.new.sent.value ≡ self.old.sent.value }
        ensures serial { self.new.serial ≡ self.old.serial }
    {
        let _ = found;
        let _whole = self.inbound.hand_over(into);
        self.life = has_handed(&self.life, into);
        Received::Some
    }

    /// Answers that nothing more comes in this stretch, where nothing is there that no lane has taken. It says whether that is so.
    pub fn end_of_stretch(&mut self) -> bool
        requires begun { 0 < length self.old.life.value.connections }
        ensures ended { IsTrue result → self.new.life.value ≡ after_receipt received.End [] self.old.life.value }
        ensures same { IsFalse result → self.new.life.value ≡ self.old.life.value }
        ensures begun { 0 < length self.new.life.value.connections }
        ensures stream { self.new.stream ≡ self.old.stream }
        ensures inbound { self.new.inbound ≡ self.old.inbound }
        ensures unsent { self.new.unsent ≡ self.old.unsent }
        ensures given { self.new.given.value ≡ self.old.given.value }
        ensures sent { self.new.sent.value ≡ self.old.sent.value }
        ensures serial { self.new.serial ≡ self.old.serial }
    {
        if !self.inbound.is_empty() {
            return false;
        }
        self.life = has_ended(&self.life);
        true
    }

    /// A line was given to a log writer, or not.
    pub fn note_line(&mut self, given: Given, key: &Key, line: &Text)
        requires begun { 0 < length self.old.life.value.connections }
        ensures life { self.new.life.value ≡ after_line given key.now line.now self.old.life.value }
        ensures begun { 0 < length self.new.life.value.connections }
        ensures stream { self.new.stream ≡ self.old.stream }
        ensures inbound { self.new.inbound ≡ self.old.inbound }
        ensures unsent { self.new.unsent ≡ self.old.unsent }
        ensures serial { self.new.serial ≡ self.old.serial }
    {
        self.life = has_logged(&self.life, given, key, line);
    }

    /// A configuration was kept, or not.
    pub fn note_keep(&mut self, given: Given, serial: u32, text: &[u8])
        requires begun { 0 < length self.old.life.value.connections }
        ensures life { self.new.life.value ≡ after_keep given serial text.now self.old.life.value }
        ensures begun { 0 < length self.new.life.value.connections }
        ensures stream { self.new.stream ≡ self.old.stream }
        ensures inbound { self.new.inbound ≡ self.old.inbound }
        ensures unsent { self.new.unsent ≡ self.old.unsent }
        ensures serial { self.new.serial ≡ self.old.serial }
    {
        self.life = has_kept(&self.life, given, serial, text);
    }

    // Keeps the whole piece to be sent later, or nothing of it.
    fn queue(&mut self, piece: &[u8]) -> bool
        requires begun { 0 < length self.old.life.value.connections }
        ensures done { IsTrue result → self.new.life.value ≡ after_put piece.now self.old.life.value }
        ensures refused { IsFalse result → self.new.life.value ≡ self.old.life.value }
        ensures begun { 0 < length self.new.life.value.connections }
        ensures inbound { self.new.inbound ≡ self.old.inbound }
        ensures stream { self.new.stream ≡ self.old.stream }
        ensures given { self.new.given.value ≡ self.old.given.value }
        ensures sent { self.new.sent.value ≡ self.old.sent.value }
        ensures serial { self.new.serial ≡ self.old.serial }
    {
        if self.unsent.push(piece).is_err() {
            return false;
        }
        self.life = has_put(&self.life, piece);
        true
    }
}

// Whether no more bytes can make something else of what was found.
fn is_settled(found: Look) -> bool
    ensures { IsTrue result ↔ IsSettled found }
{
    match found {
        Look::More => false,
        Look::Whole | Look::End | Look::Cut | Look::Refused(_) => true,
    }
}

impl<S: Stream> Link<S> {
    /// Receives once, and keeps what came. Once nothing more comes it receives nothing.
    pub fn fill(&mut self, room: &mut [u8]) -> Filled
        requires { 0 < length room.old }
        ensures came { (came : Values ℕ) × (lost : Values ℕ) × IsFilled result came lost × (self.new.inbound ≡ self.old.inbound ++ came) × (self.new.given.value ≡ self.old.given.value ++ came) × (S.given self.new.stream ≡ (S.given self.old.stream ++ came) ++ lost) }
        ensures life { self.new.life.value ≡ self.old.life.value }
        ensures unsent { self.new.unsent ≡ self.old.unsent }
        ensures sent { (self.new.sent.value ≡ self.old.sent.value) × (S.sent self.new.stream ≡ S.sent self.old.stream) }
        ensures serial { self.new.serial ≡ self.old.serial }
    {
        if self.ended {
            return Filled::End;
        }
        match self.stream.receive(room) {
            Got::Bytes(count) => self.keep_piece(&room[..count]),
            Got::End => {
                self.ended = true;
                Filled::End
            }
            Got::Later => Filled::Later,
            Got::Failed => {
                self.ended = true;
                Filled::Failed
            }
        }
    }

    // Keeps a piece that came.
    fn keep_piece(&mut self, piece: &[u8]) -> Filled
        requires { 0 < length piece.now }
        ensures came { (came : Values ℕ) × (lost : Values ℕ) × IsFilled result came lost × (piece.now ≡ came ++ lost) × (self.new.inbound ≡ self.old.inbound ++ came) × (self.new.given.value ≡ self.old.given.value ++ came) }
        ensures life { self.new.life.value ≡ self.old.life.value }
        ensures unsent { self.new.unsent ≡ self.old.unsent }
        ensures stream { self.new.stream ≡ self.old.stream }
        ensures sent { self.new.sent.value ≡ self.old.sent.value }
        ensures serial { self.new.serial ≡ self.old.serial }
    {
        if self.inbound.push(piece).is_err() {
            self.ended = true;
            return Filled::Lacking;
        }
        self.given = self.given.then::<Bytes, Adds>(&Bytes { bytes: piece });
        Filled::Some
    }

    /// Sends once of what is to be sent. Once a send has failed it sends nothing.
    pub fn flush(&mut self) -> Flushed
        ensures life { self.new.life.value ≡ self.old.life.value }
        ensures inbound { self.new.inbound ≡ self.old.inbound }
        ensures given { (self.new.given.value ≡ self.old.given.value) × (S.given self.new.stream ≡ S.given self.old.stream) }
        ensures sent { AddsAlike self.old.sent.value self.new.sent.value (S.sent self.old.stream) (S.sent self.new.stream) }
        ensures done { result ≡ flushed.Done → self.new.unsent ≡ [] }
        ensures serial { self.new.serial ≡ self.old.serial }
    {
        if self.unsent.is_empty() {
            return Flushed::Done;
        }
        if self.broken {
            return Flushed::Failed;
        }
        match self.stream.send(self.unsent.as_slice()) {
            Sent::Bytes(count) => {
                self.sent = self.sent.then::<Bytes, Adds>(&Bytes {
                    bytes: &self.unsent.as_slice()[..count],
                });
                self.unsent.advance(count);
                if self.unsent.is_empty() {
                    Flushed::Done
                } else {
                    Flushed::Later
                }
            }
            Sent::Later => Flushed::Later,
            Sent::Failed => {
                self.broken = true;
                Flushed::Failed
            }
        }
    }

    // Sends the front of a piece at once, where nothing waits to be sent before it, and says how many bytes.
    #[tactic(auto, using(crate::proofs::LifeLemmas::put_nothing))]
    fn send_now(&mut self, piece: &[u8]) -> usize
        requires some { 0 < length piece.now }
        requires begun { 0 < length self.old.life.value.connections }
        requires idle { self.old.unsent ≡ [] }
        ensures count { result ≤ length piece.now }
        ensures life { self.new.life.value ≡ after_put (take result piece.now) self.old.life.value }
        ensures begun { 0 < length self.new.life.value.connections }
        ensures inbound { self.new.inbound ≡ self.old.inbound }
        ensures given { (self.new.given.value ≡ self.old.given.value) × (S.given self.new.stream ≡ S.given self.old.stream) }
        ensures sent { AddsAlike self.old.sent.value self.new.sent.value (S.sent self.old.stream) (S.sent self.new.stream) }
        ensures serial { self.new.serial ≡ self.old.serial }
    {
        match self.stream.send(piece) {
            Sent::Bytes(count) => {
                self.life = has_put(&self.life, &piece[..count]);
                self.sent = self.sent.then::<Bytes, Adds>(&Bytes {
                    bytes: &piece[..count],
                });
                count
            }
            Sent::Later => 0,
            Sent::Failed => {
                self.broken = true;
                0
            }
        }
    }

    // Sends the front of a piece, and keeps the rest, where nothing waits to be sent before it.
    fn write_now(&mut self, piece: &[u8]) -> Given
        requires some { 0 < length piece.now }
        requires begun { 0 < length self.old.life.value.connections }
        requires idle { self.old.unsent ≡ [] }
        ensures life { IsWritten result piece.now self.old.life.value self.new.life.value }
        ensures begun { 0 < length self.new.life.value.connections }
        ensures inbound { self.new.inbound ≡ self.old.inbound }
        ensures given { (self.new.given.value ≡ self.old.given.value) × (S.given self.new.stream ≡ S.given self.old.stream) }
        ensures sent { AddsAlike self.old.sent.value self.new.sent.value (S.sent self.old.stream) (S.sent self.new.stream) }
        ensures serial { self.new.serial ≡ self.old.serial }
    {
        let sent = self.send_now(piece);
        if sent == piece.len() {
            return Given::All;
        }
        if self.broken {
            return Given::Failed;
        }
        if self.queue(rest_from(piece, sent)) {
            Given::All
        } else {
            Given::Failed
        }
    }

    // Keeps a piece to be sent later.
    #[tactic(auto, using(crate::proofs::LifeLemmas::nothing_written))]
    fn write_later(&mut self, piece: &[u8]) -> Given
        requires some { 0 < length piece.now }
        requires begun { 0 < length self.old.life.value.connections }
        ensures life { IsWritten result piece.now self.old.life.value self.new.life.value }
        ensures begun { 0 < length self.new.life.value.connections }
        ensures inbound { self.new.inbound ≡ self.old.inbound }
        ensures given { (self.new.given.value ≡ self.old.given.value) × (S.given self.new.stream ≡ S.given self.old.stream) }
        ensures sent { AddsAlike self.old.sent.value self.new.sent.value (S.sent self.old.stream) (S.sent self.new.stream) }
        ensures serial { self.new.serial ≡ self.old.serial }
    {
        if self.unsent.len() > MAX_UNSENT_BYTES {
            return Given::Failed;
        }
        if self.queue(piece) {
            Given::All
        } else {
            Given::Failed
        }
    }

    /// Writes a piece: what the stream takes is sent at once, and the rest is kept. At `Failed` a part from its front was written: a send
    /// has failed, now or before, more than `MAX_UNSENT_BYTES` wait to be sent, or memory has run out.
    #[tactic(auto, using(crate::proofs::LifeLemmas::nothing_written))]
    pub fn write(&mut self, piece: &[u8]) -> Given
        requires some { 0 < length piece.now }
        requires begun { 0 < length self.old.life.value.connections }
        ensures life { IsWritten result piece.now self.old.life.value self.new.life.value }
        ensures begun { 0 < length self.new.life.value.connections }
        ensures inbound { self.new.inbound ≡ self.old.inbound }
        ensures given { (self.new.given.value ≡ self.old.given.value) × (S.given self.new.stream ≡ S.given self.old.stream) }
        ensures sent { AddsAlike self.old.sent.value self.new.sent.value (S.sent self.old.stream) (S.sent self.new.stream) }
        ensures serial { self.new.serial ≡ self.old.serial }
    {
        if self.broken {
            return Given::Failed;
        }
        if self.unsent.is_empty() {
            self.write_now(piece)
        } else {
            self.write_later(piece)
        }
    }
}
