ghost use Rattle.std.specs.Prelude.{◌≡◌, ◌∷◌, ◌⊎◌, [], true, false, is_some, IfOk, IfSome};
ghost use Rattle.cd_outside.specs.declared.fixtures.FixtureCall.TheVariants as call;
ghost use Rattle.cd_outside.specs.declared.fixtures.Opened.TheVariants as opened;
ghost use Rattle.cd_outside.specs.Counts.{Rises};
ghost use Rattle.cd_outside.specs.Keys.{has_key};
ghost use Rattle.cd_outside.specs.FixtureCall.{CallsGrow, opening_of, open_keys, was_shut};
ghost use Rattle.cd_outside.specs.Faults.{IsDue, Counted};
ghost use Rattle.cd_outside.specs.FixtureRecord.{told};

use crate::fixture_record::FixtureRecord;
use crate::{Faults, FixtureCall, Fixtures, Key, Opened};
use cd_text::{List, NoMemory};
use std::alloc::Global;

/// Fixtures in memory, which open nothing and record each call. An opening that finds no memory for its record fails and is
/// counted, and from then on nothing is told. `new` takes the memory for a shutting, and an opening that for its closing, so
/// that these take none. Neither does any other: after the closing of a key that is not open, or a second shutting, nothing is
/// told any more.
#[derive(Debug, Drop)]
pub struct MemoryFixtures {
    /// The calls so far.
    pub recorded: FixtureRecord,
    /// Which openings fail.
    pub faults: Faults,
}

impl MemoryFixtures {
    /// Fixtures of which nothing was asked yet, whose openings fail at these numbers, counted from 0.
    pub fn new(alloc: Global, failing: List<u64>) -> Result<MemoryFixtures, NoMemory>
        ensures calls { IfOk result (λ made. made.recorded ≡ record { calls = []; silent = false }) }
        ensures faults { IfOk result (λ made. made.faults ≡ record { failing = failing; calls = 0; count = 0 }) }
    {
        Ok(MemoryFixtures {
            recorded: FixtureRecord::new(alloc)?,
            faults: Faults::new(failing),
        })
    }

    /// The calls so far. Once nothing is told any more, those before the one that could not be recorded.
    pub fn calls(&self) -> &Vec<FixtureCall>
        ensures { result.now.items ≡ self.now.recorded.calls }
    {
        self.recorded.calls()
    }

    /// How often it has failed.
    pub fn faults(&self) -> u64
        ensures { result ≡ self.now.faults.count }
    {
        self.faults.count
    }
}

impl Fixtures for MemoryFixtures {
    ghost faults = { λ fixtures. fixtures.faults.count };

    ghost calls = { λ fixtures. told fixtures.recorded };

    fn open_key(&mut self, key: &Key) -> Opened
        ensures calls { CallsGrow (told self.old.recorded) (opening_of result key.now ∷ []) (told self.new.recorded) }
        ensures tells { result ≡ opened.Ready → is_some (told self.old.recorded) ≡ true → is_some (told self.new.recorded) ≡ true }
        ensures cause { Rises self.old.faults.count self.new.faults.count (result ≡ opened.Failed) }

        // where its number is none that fails, it fails only where memory runs out, and nothing is told from that call on
        ensures fails { IsDue self.old.faults → result ≡ opened.Failed }
        ensures only { result ≡ opened.Failed → IsDue self.old.faults ⊎ ((self.old.recorded.silent ≡ false) × (self.new.recorded.silent ≡ true)) }
        ensures stays { self.new.recorded.silent ≡ true → self.new.recorded.calls ≡ self.old.recorded.calls }
        ensures counted { Counted (result ≡ opened.Failed) self.old.faults self.new.faults }
    {
        if self.faults.fails() {
            self.faults.rise();
            self.recorded.add_refused(key);
            return Opened::Failed;
        }
        if self.recorded.add_opened(key).is_err() {
            self.faults.rise();
            return Opened::Failed;
        }
        Opened::Ready
    }

    fn close_key(&mut self, key: &Key)
        ensures calls { CallsGrow (told self.old.recorded) (call.Closed key.now ∷ []) (told self.new.recorded) }
        ensures tells { IfSome (told self.old.recorded) (λ calls. has_key key.now (open_keys calls) ≡ true → is_some (told self.new.recorded) ≡ true) }
        ensures faults { self.new.faults.count ≡ self.old.faults.count }

        // it has no number
        ensures stays { self.new.recorded.silent ≡ true → self.new.recorded.calls ≡ self.old.recorded.calls }
        ensures counted { self.new.faults ≡ self.old.faults }
    {
        self.recorded.add_closed(key);
    }

    fn shut(&mut self)
        ensures calls { CallsGrow (told self.old.recorded) (call.Shut ∷ []) (told self.new.recorded) }
        ensures tells { IfSome (told self.old.recorded) (λ calls. was_shut calls ≡ false → is_some (told self.new.recorded) ≡ true) }
        ensures faults { self.new.faults.count ≡ self.old.faults.count }

        // it has no number
        ensures stays { self.new.recorded.silent ≡ true → self.new.recorded.calls ≡ self.old.recorded.calls }
        ensures counted { self.new.faults ≡ self.old.faults }
    {
        self.recorded.add_shut();
    }
}
