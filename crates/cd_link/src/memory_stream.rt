ghost use Rattle.std.specs.Prelude.{◌≡◌, ◌<◌, ◌≤◌, ◌++◌, [], length, Some};
ghost use Rattle.std.specs.Io.KnownBytes.{Consumes, Appends};
ghost use Rattle.cd_outside.specs.Counts.{Rises};
ghost use Rattle.cd_outside.specs.Pieces.{not_empty};
ghost use Rattle.cd_text.specs.Steps.{joined};
ghost use Rattle.cd_link.specs.declared.stream.Got.TheVariants as got;
ghost use Rattle.cd_link.specs.declared.stream.Sent.TheVariants as sends;
ghost use Rattle.cd_link.specs.Streams.{IsGotWithin, got_bytes, EndsOnly, IsSentWithin, sent_bytes};

use crate::stretches::{Adds, Bytes};
use crate::{Got, Sent, Stream, Told};
use cd_outside::{Faults, Pieces};
use cd_text::{List, Octets};
use std::alloc::Global;

/// A stream in memory, which plays a script.
#[derive(Drop)]
pub struct MemoryStream {
    // by which who made it knows it
    number: usize,
    // what is left to come
    pieces: Pieces,
    // which calls fail, receives and sends counted together
    faults: Faults,
    // which calls answer `Later`, by the same numbers, and from which number on all do
    later: List<u64>,
    stops: u64,
    // how many bytes a send takes at most
    most: usize,
    // what has come
    given: Told<Octets>,
    // what was sent
    sent: Octets,
}

impl MemoryStream {
    /// A stream of these pieces, where empty ones are passed over. Receives and sends are counted together, in the order in which they
    /// are made, from 0: those of the numbers `failing` fail, those of the numbers `later` answer `Later`, and so do all from the number
    /// `stops` on. A send takes so many bytes at most, and one at least. By `number` who makes it knows it.
    pub fn new(
        alloc: Global,
        number: usize,
        pieces: List<Octets>,
        failing: List<u64>,
        later: List<u64>,
        stops: u64,
        most: usize,
    ) -> MemoryStream
        ensures given { result.given.value ≡ [] }
        ensures sent { result.sent ≡ [] }
        ensures left { result.pieces ≡ not_empty pieces }
        ensures number { result.number ≡ number }
    {
        MemoryStream {
            number,
            pieces: Pieces::new(pieces),
            faults: Faults::new(failing),
            later,
            stops,
            most,
            given: Told::of(&Octets::new(alloc)),
            sent: Octets::new(alloc),
        }
    }

    /// The number that it was made with.
    pub fn number(&self) -> usize
        ensures { result ≡ self.now.number }
    {
        self.number
    }

    /// What was sent so far.
    pub fn sent(&self) -> &[u8]
        ensures { result.now ≡ self.now.sent }
    {
        self.sent.as_slice()
    }
}

impl Stream for MemoryStream {
    ghost faults = { λ s. s.faults.count };

    ghost given = { λ s. s.given.value };

    ghost sent = { λ s. s.sent };

    ghost left = { λ s. Some (joined s.pieces) };

    ghost held = { λ s. Some s.sent };

    #[tactic(auto, using(crate::proofs::StreamLemmas::comes, crate::proofs::StreamLemmas::ends, crate::proofs::StreamLemmas::none_left))]
    fn receive(&mut self, into: &mut [u8]) -> Got {
        let number = self.faults.calls;
        if self.faults.fails() {
            self.faults.rise();
            return Got::Failed;
        }
        if number >= self.stops || self.later.as_slice().contains(&number) {
            return Got::Later;
        }
        let count = self.pieces.read(into);
        if count == 0 {
            return Got::End;
        }
        self.given = self.given.then::<Bytes, Adds>(&Bytes {
            bytes: &into[..count],
        });
        Got::Bytes(count)
    }

    /// Where memory runs out it fails too.
    fn send(&mut self, piece: &[u8]) -> Sent {
        let number = self.faults.calls;
        if self.faults.fails() {
            self.faults.rise();
            return Sent::Failed;
        }
        if number >= self.stops || self.later.as_slice().contains(&number) {
            return Sent::Later;
        }
        let count = piece.len().min(self.most.max(1));
        if self.sent.append(&piece[..count]).is_err() {
            self.faults.rise();
            return Sent::Failed;
        }
        Sent::Bytes(count)
    }
}
