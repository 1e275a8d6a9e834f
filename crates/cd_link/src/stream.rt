ghost use Rattle.std.specs.Prelude.{◌≡◌, ◌<◌, ◌++◌, List, ℕ, length, Option, None};
ghost use Rattle.std.specs.Io.KnownBytes.{Consumes, Appends};
ghost use Rattle.cd_outside.specs.Counts.{Rises};
ghost use Rattle.cd_link.specs.declared.stream.Got.TheVariants as got;
ghost use Rattle.cd_link.specs.declared.stream.Sent.TheVariants as sends;
ghost use Rattle.cd_link.specs.Streams.{IsGotWithin, got_bytes, EndsOnly, IsSentWithin, sent_bytes};

/// What one receive of a stream answers.
#[derive(Clone, Copy, Debug, PartialEq, Eq)]
pub enum Got {
    /// So many bytes came, from one to the length of the room.
    Bytes(usize),
    /// The other side sends no more.
    End,
    /// Nothing is there yet.
    Later,
    /// The receive failed. The faults rose.
    Failed,
}

/// What one send of a stream answers.
#[derive(Clone, Copy, Debug, PartialEq, Eq)]
pub enum Sent {
    /// So many bytes were taken, from one to the length of the piece.
    Bytes(usize),
    /// None is taken yet.
    Later,
    /// The send failed, and none was taken. The faults rose.
    Failed,
}

/// A stream of bytes in both directions that never waits. It reports what its calls have answered so far.
pub trait Stream: Drop {
    /// How often it has failed.
    ghost faults: { Self → ℕ };

    /// All bytes that its receives have given.
    ghost given: { Self → List ℕ };

    /// All bytes that its sends have taken.
    ghost sent: { Self → List ℕ };

    /// The bytes that are still to come, where they are known.
    ghost left: { Self → Option (List ℕ) } = { λ _. None };

    /// The bytes that the other side holds, where they are known.
    ghost held: { Self → Option (List ℕ) } = { λ _. None };

    /// Receives what is there into the front of `into`, which may not be empty. Known bytes come in their order, and none is left out.
    fn receive(&mut self, into: &mut [u8]) -> Got
        requires { 0 < length into.old }
        ensures len { length into.new ≡ length into.old }
        ensures bound { IsGotWithin result (length into.new) }
        ensures given { given self.new ≡ given self.old ++ got_bytes result into.new }
        ensures left { Consumes (left self.old) (left self.new) (got_bytes result into.new) }
        ensures end { EndsOnly result (left self.new) }
        ensures sent { sent self.new ≡ sent self.old }
        ensures cause { Rises (faults self.old) (faults self.new) (result ≡ got.Failed) };

    /// Sends the front of a piece, which may not be empty, as far as it is taken.
    fn send(&mut self, piece: &[u8]) -> Sent
        requires { 0 < length piece.now }
        ensures bound { IsSentWithin result (length piece.now) }
        ensures sent { sent self.new ≡ sent self.old ++ sent_bytes result piece.now }
        ensures held { Appends (held self.old) (held self.new) (sent_bytes result piece.now) }
        ensures given { given self.new ≡ given self.old }
        ensures cause { Rises (faults self.old) (faults self.new) (result ≡ sends.Failed) };
}
