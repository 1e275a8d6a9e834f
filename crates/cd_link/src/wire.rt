ghost use Rattle.std.specs.Prelude.{◌≡◌, ◌++◌, []};
ghost use Rattle.std.specs.Io.KnownBytes.{Consumes, Appends, Keeps};

use crate::stretches::{Adds, Bytes};
use crate::{Got, Sent, Stream, Told};
use cd_text::Octets;
use std::alloc::Global;
use std::io::{Error, ErrorKind, Read, Write};

/// A stream over what reads and writes without waiting, as a socket does that is set so. It reports what its calls have answered.
pub struct Wire<T> {
    inner: T,
    faults: u64,
    given: Told<Octets>,
    sent: Told<Octets>,
}

impl<T: Drop> Drop for Wire<T> {
    fn drop(self) {
        let Self {
            inner: _,
            faults: _,
            given: _,
            sent: _,
        } = self;
    }
}

impl<T> Wire<T> {
    /// A stream of which nothing has come and to which nothing was sent.
    pub fn new(alloc: Global, inner: T) -> Wire<T>
        ensures inner { result.inner ≡ inner }
        ensures given { result.given.value ≡ [] }
        ensures sent { result.sent.value ≡ [] }
    {
        Wire {
            inner,
            faults: 0,
            given: Told::of(&Octets::new(alloc)),
            sent: Told::of(&Octets::new(alloc)),
        }
    }

    /// What it reads and writes, to look at.
    pub fn inner(&self) -> &T
        ensures { result.now ≡ self.now.inner }
    {
        &self.inner
    }
}

// Whether nothing is there yet, or nothing is taken yet: also after a signal.
fn is_early(error: &Error) -> bool {
    matches!(
        error.kind(),
        ErrorKind::Interrupted | ErrorKind::WouldBlock | ErrorKind::TimedOut
    )
}

impl<T: Read + Write + Drop> Stream for Wire<T> {
    ghost faults = { λ w. w.faults };

    ghost given = { λ w. w.given.value };

    ghost sent = { λ w. w.sent.value };

    ghost left = { λ w. T.remaining w.inner };

    ghost held = { λ w. T.contents w.inner };

    #[tactic(auto, using(crate::proofs::StreamLemmas::kept_consumes))]
    fn receive(&mut self, into: &mut [u8]) -> Got {
        match self.inner.read(into) {
            Ok(0) => Got::End,
            Ok(count) => {
                self.given = self.given.then::<Bytes, Adds>(&Bytes {
                    bytes: &into[..count],
                });
                Got::Bytes(count)
            }
            Err(error) if is_early(&error) => Got::Later,
            Err(_) => {
                self.faults = self.faults.saturating_add(1);
                Got::Failed
            }
        }
    }

    #[tactic(auto, using(crate::proofs::StreamLemmas::kept_appends))]
    fn send(&mut self, piece: &[u8]) -> Sent {
        match self.inner.write(piece) {
            Ok(0) => {
                self.faults = self.faults.saturating_add(1);
                Sent::Failed
            }
            Ok(count) => {
                self.sent = self.sent.then::<Bytes, Adds>(&Bytes {
                    bytes: &piece[..count],
                });
                Sent::Bytes(count)
            }
            Err(error) if is_early(&error) => Sent::Later,
            Err(_) => {
                self.faults = self.faults.saturating_add(1);
                Sent::Failed
            }
        }
    }
}
