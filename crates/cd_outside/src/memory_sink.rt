ghost use Rattle.std.specs.Prelude.{◌≡◌, ◌++◌, ◌<◌, [], List as Values, ℕ, length, Some, option_map};
ghost use Rattle.cd_outside.specs.declared.given.Given.TheVariants.{Failed};
ghost use Rattle.cd_outside.specs.Counts.{Rises};
ghost use Rattle.cd_outside.specs.Given.{IsGivenOf};
ghost use Rattle.cd_outside.specs.Faults.{IsDue, Counted};

use crate::{Faults, Given, Sink};
use cd_text::{List, Octets};
use std::alloc::Global;

/// A sink in memory. A write that finds no memory fails too, and is counted.
#[derive(Debug, Drop)]
pub struct MemorySink {
    /// The bytes that it holds.
    pub bytes: Octets,
    /// Which writes fail.
    pub faults: Faults,
}

impl MemorySink {
    /// An empty sink, whose writes fail at these numbers, counted from 0.
    pub fn new(alloc: Global, failing: List<u64>) -> MemorySink
        ensures { result ≡ record { bytes = []; faults = record { failing = failing; calls = 0; count = 0 } } }
    {
        MemorySink {
            bytes: Octets::new(alloc),
            faults: Faults::new(failing),
        }
    }

    /// The bytes that it holds.
    pub fn bytes(&self) -> &Octets
        ensures { result.now ≡ self.now.bytes }
    {
        &self.bytes
    }

    /// How often it has failed.
    pub fn faults(&self) -> u64
        ensures { result ≡ self.now.faults.count }
    {
        self.faults.count
    }
}

impl Sink for MemorySink {
    ghost faults = { λ sink. sink.faults.count };

    ghost holds = { λ sink. Some sink.bytes };

    fn write(&mut self, piece: &[u8]) -> Given
        requires { 0 < length piece.now }
        ensures bytes { (part : Values ℕ) × IsGivenOf result part piece.now × (Some self.new.bytes ≡ option_map (λ held. held ++ part) (Some self.old.bytes)) }
        ensures cause { Rises self.old.faults.count self.new.faults.count (result ≡ Failed) }

        // where its number is none that fails, it fails only where memory runs out
        ensures fails { IsDue self.old.faults → result ≡ Failed }
        ensures nothing { result ≡ Failed → self.new.bytes ≡ self.old.bytes }
        ensures counted { Counted (result ≡ Failed) self.old.faults self.new.faults }
    {
        if self.faults.fails() {
            self.faults.rise();
            return Given::Failed;
        }
        if self.bytes.append(piece).is_err() {
            self.faults.rise();
            return Given::Failed;
        }
        Given::All
    }
}
