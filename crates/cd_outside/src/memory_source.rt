ghost use Rattle.std.specs.Prelude.{◌≡◌, ◌↔◌, ◌++◌, ◌<◌, length, Some, option_map};
ghost use Rattle.cd_outside.specs.declared.taken.Taken.TheVariants.{Failed};
ghost use Rattle.cd_outside.specs.Counts.{Rises};
ghost use Rattle.cd_outside.specs.Taken.{IsTakenWithin, bytes_of, EndsOnly};
ghost use Rattle.cd_outside.specs.Faults.{IsDue, Counted};
ghost use Rattle.cd_text.specs.Steps.{joined};
ghost use Rattle.cd_outside.specs.Pieces.{not_empty, Reads};

use crate::{Faults, Pieces, Source, Taken};
use cd_text::{List, Octets};

/// A source in memory. It gives its pieces in order, passes over empty ones, and takes no memory.
#[derive(Debug, Drop)]
pub struct MemorySource {
    /// The pieces that are left.
    pub pieces: Pieces,
    /// Which reads fail.
    pub faults: Faults,
}

impl MemorySource {
    /// A source of these pieces, whose reads fail at these numbers, counted from 0.
    pub fn new(pieces: List<Octets>, failing: List<u64>) -> MemorySource
        ensures left { result.pieces ≡ not_empty pieces }
        ensures bytes { joined result.pieces ≡ joined pieces }
        ensures faults { result.faults ≡ record { failing = failing; calls = 0; count = 0 } }
    {
        MemorySource {
            pieces: Pieces::new(pieces),
            faults: Faults::new(failing),
        }
    }

    /// How often it has failed.
    pub fn faults(&self) -> u64
        ensures { result ≡ self.now.faults.count }
    {
        self.faults.count
    }
}

impl Source for MemorySource {
    ghost faults = { λ source. source.faults.count };

    ghost left = { λ source. Some (joined source.pieces) };

    fn read(&mut self, into: &mut [u8]) -> Taken
        requires { 0 < length into.old }
        ensures bound { IsTakenWithin result (length into.new) }
        ensures bytes { Some (joined self.old.pieces) ≡ option_map (λ rest. bytes_of result into.new ++ rest) (Some (joined self.new.pieces)) }
        ensures end { EndsOnly result (Some (joined self.new.pieces)) }
        ensures cause { Rises self.old.faults.count self.new.faults.count (result ≡ Failed) }

        // it gives what is left of the piece at hand, as far as there is room
        ensures reads { Reads result into.new self.old.pieces self.new.pieces }

        // it takes no memory, so its number alone decides
        ensures exactly { (result ≡ Failed) ↔ IsDue self.old.faults }
        ensures counted { Counted (result ≡ Failed) self.old.faults self.new.faults }
    {
        if self.faults.fails() {
            self.faults.rise();
            return Taken::Failed;
        }
        match self.pieces.read(into) {
            0 => Taken::End,
            count => Taken::Bytes(count),
        }
    }
}
