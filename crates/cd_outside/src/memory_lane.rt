ghost use Rattle.std.specs.Prelude.{◌≡◌, ◌<◌, ◌++◌, true, false, [], List as Values, ℕ, length, Option, Some, None, is_some, option_map};
ghost use Rattle.cd_outside.specs.declared.taken.Taken.TheVariants as taken;
ghost use Rattle.cd_outside.specs.declared.given.Given.TheVariants as given;
ghost use Rattle.cd_outside.specs.declared.accepted.Accepted.TheVariants as accepted;
ghost use Rattle.cd_outside.specs.Counts.{Rises, raised};
ghost use Rattle.cd_outside.specs.Taken.{IsTakenWithin};
ghost use Rattle.cd_outside.specs.Given.{IsGivenOf};
ghost use Rattle.cd_outside.specs.Past.{after_accept, after_read, after_put, after_line, after_keep, is_connection};
ghost use Rattle.cd_outside.specs.Faults.{IsDue, Counted};
ghost use Rattle.cd_outside.specs.Script.{Plays, Draws};

use crate::recording::{add_keep, add_line, add_put, add_taken, begin, mark_ended, refuse};
use crate::{Accepted, Call, Faults, Given, Key, Lane, Past, Pieces, Taken};
use cd_text::{List, Text};
use std::alloc::Global;
use std::sync::Wait;

/// A lane in memory, which plays a script: its connections in order, and of each its pieces in order, where empty ones are
/// passed over. A script that is used up answers `Ended`.
///
/// A call that finds no memory for what the lane tells fails too, and is counted.
#[derive(Debug, Drop)]
pub struct MemoryLane {
    alloc: Global,
    /// The connections that are still to come.
    pub script: List<Call>,
    /// What is left to be read from the connection that is there.
    pub current: Option<Pieces>,
    /// Which calls fail. `accept`, `read`, `write` and `log` are counted together, in the order in which they are made; `keep`
    /// has no number, so it fails only where memory runs out, and `seen` never fails.
    pub faults: Faults,
    /// What has happened so far.
    pub past: Past,
    pub ghost recorded: { is_some current ≡ true → 0 < length past.connections },
}

impl MemoryLane {
    /// A lane with this script, whose calls fail at these numbers, counted from 0. No connection is there.
    pub fn new(alloc: Global, script: List<Call>, failing: List<u64>) -> MemoryLane
        ensures script { result.script ≡ script }
        ensures idle { result.current ≡ None }
        ensures faults { result.faults ≡ record { failing = failing; calls = 0; count = 0 } }
        ensures past { result.past ≡ record { accept_faults = 0; last = None; connections = [] } }
    {
        MemoryLane {
            alloc,
            script,
            current: None,
            faults: Faults::new(failing),
            past: Past {
                accept_faults: 0,
                last: None,
                connections: List::new(alloc),
            },
        }
    }

    /// What has happened so far.
    pub fn past(&self) -> &Past
        ensures { result.now ≡ self.now.past }
    {
        &self.past
    }

    /// How often it has failed.
    pub fn faults(&self) -> u64
        ensures { result ≡ self.now.faults.count }
    {
        self.faults.count
    }
}

impl Lane for MemoryLane {
    ghost faults = { λ lane. lane.faults.count };

    ghost busy = { λ lane. is_some lane.current };

    ghost past = { λ lane. Some lane.past };

    ghost since = { λ _. None };

    fn accept(&mut self) -> Accepted
        requires { is_some self.old.current ≡ false }
        ensures busy { is_some self.new.current ≡ is_connection result }
        ensures past { Some self.new.past ≡ option_map (after_accept result) (Some self.old.past) }
        ensures cause { Rises self.old.faults.count self.new.faults.count (result ≡ accepted.Failed) }

        // where its number is none that fails, it fails only where memory runs out
        ensures fails { IsDue self.old.faults → result ≡ accepted.Failed }
        ensures plays { Plays result self.old.script self.new.script self.new.current }
        ensures ended { self.old.script ≡ [] → result ≡ accepted.Failed → IsDue self.old.faults }
        ensures counted { Counted (result ≡ accepted.Failed) self.old.faults self.new.faults }
    {
        if self.faults.fails() {
            self.faults.rise();
            refuse(&mut self.past);
            return Accepted::Failed;
        }
        if self.script.is_empty() {
            self.past.last = Some(Accepted::Ended);
            return Accepted::Ended;
        }
        let next = &self.script.as_slice()[0];
        if begin(self.alloc, &mut self.past, &next.address).is_err() {
            self.faults.rise();
            refuse(&mut self.past);
            return Accepted::Failed;
        }
        let Call { address, pieces } = self.script.remove(0);
        self.current = Some(Pieces::new(pieces));
        Accepted::Connection(address)
    }

    fn read(&mut self, into: &mut [u8]) -> Taken
        requires busy { is_some self.old.current ≡ true }
        requires room { 0 < length into.old }
        ensures busy { is_some self.new.current ≡ true }
        ensures bound { IsTakenWithin result (length into.new) }
        ensures past { Some self.new.past ≡ option_map (after_read result into.new) (Some self.old.past) }
        ensures cause { Rises self.old.faults.count self.new.faults.count (result ≡ taken.Failed) }

        // it gives what is left of the piece at hand, as far as there is room; where its number is none that fails, it fails
        // only where memory runs out; then it takes nothing either
        ensures fails { IsDue self.old.faults → result ≡ taken.Failed }
        ensures kept { result ≡ taken.Failed → self.new.current ≡ self.old.current }
        ensures draws { Draws result into.new self.old.current self.new.current }
        ensures ended { self.old.current ≡ Some [] → result ≡ taken.Failed → IsDue self.old.faults }
        ensures script { self.new.script ≡ self.old.script }
        ensures counted { Counted (result ≡ taken.Failed) self.old.faults self.new.faults }
    {
        if self.faults.fails() {
            self.faults.rise();
            return Taken::Failed;
        }
        let Some(pieces) = &mut self.current else {
            unreachable!();
        };
        let count = pieces.fill(into);
        if count == 0 {
            mark_ended(self.alloc, &mut self.past);
            return Taken::End;
        }
        if add_taken(self.alloc, &mut self.past, &into[..count]).is_err() {
            self.faults.rise();
            return Taken::Failed;
        }
        pieces.advance(count);
        Taken::Bytes(count)
    }

    fn write(&mut self, piece: &[u8]) -> Given
        requires busy { is_some self.old.current ≡ true }
        requires some { 0 < length piece.now }
        ensures busy { is_some self.new.current ≡ true }
        ensures past { (part : Values ℕ) × IsGivenOf result part piece.now × (Some self.new.past ≡ option_map (after_put part) (Some self.old.past)) }
        ensures cause { Rises self.old.faults.count self.new.faults.count (result ≡ given.Failed) }

        // where its number is none that fails, it fails only where memory runs out
        ensures fails { IsDue self.old.faults → result ≡ given.Failed }
        ensures nothing { result ≡ given.Failed → self.new.past ≡ self.old.past }
        ensures current { self.new.current ≡ self.old.current }
        ensures script { self.new.script ≡ self.old.script }
        ensures counted { Counted (result ≡ given.Failed) self.old.faults self.new.faults }
    {
        if self.faults.fails() {
            self.faults.rise();
            return Given::Failed;
        }
        if add_put(self.alloc, &mut self.past, piece).is_err() {
            self.faults.rise();
            return Given::Failed;
        }
        Given::All
    }

    fn log(&mut self, key: &Key, line: &Text) -> Given
        requires { is_some self.old.current ≡ true }
        ensures busy { is_some self.new.current ≡ true }
        ensures past { Some self.new.past ≡ option_map (after_line result key.now line.now) (Some self.old.past) }
        ensures cause { Rises self.old.faults.count self.new.faults.count (result ≡ given.Failed) }

        // where its number is none that fails, it fails only where memory runs out
        ensures fails { IsDue self.old.faults → result ≡ given.Failed }
        ensures current { self.new.current ≡ self.old.current }
        ensures script { self.new.script ≡ self.old.script }
        ensures counted { Counted (result ≡ given.Failed) self.old.faults self.new.faults }
    {
        if self.faults.fails() {
            self.faults.rise();
            return Given::Failed;
        }
        if add_line(self.alloc, &mut self.past, key, line).is_err() {
            self.faults.rise();
            return Given::Failed;
        }
        Given::All
    }

    fn keep<R: Wait>(&mut self, rt: &R, serial: u32, text: &[u8]) -> Given
        requires { is_some self.old.current ≡ true }
        ensures busy { is_some self.new.current ≡ true }
        ensures past { Some self.new.past ≡ option_map (after_keep result serial text.now) (Some self.old.past) }
        ensures cause { Rises self.old.faults.count self.new.faults.count (result ≡ given.Failed) }

        // it has no number, and fails only where memory runs out
        ensures current { self.new.current ≡ self.old.current }
        ensures script { self.new.script ≡ self.old.script }
        ensures all { result ≡ given.All → self.new.faults ≡ self.old.faults }
        ensures failed { result ≡ given.Failed → self.new.faults ≡ record self.old.faults { count = raised self.old.faults.count } }
    {
        if add_keep(self.alloc, &mut self.past, serial, text).is_err() {
            self.faults.rise();
            return Given::Failed;
        }
        Given::All
    }

    fn rest(&mut self)
        requires { is_some self.old.current ≡ true }
        ensures busy { is_some self.new.current ≡ true }
        ensures past { Some self.new.past ≡ Some self.old.past }
        ensures faults { self.new.faults.count ≡ self.old.faults.count }

        // nothing changes
        ensures script { self.new.script ≡ self.old.script }
        ensures current { self.new.current ≡ self.old.current }
        ensures counted { self.new.faults ≡ self.old.faults }
    {}

    fn seen(&mut self, serial: u32) -> Given
        requires { is_some self.old.current ≡ true }
        ensures busy { is_some self.new.current ≡ true }
        ensures past { Some self.new.past ≡ Some self.old.past }
        ensures cause { Rises self.old.faults.count self.new.faults.count (result ≡ given.Failed) }

        // it tells nothing of the time before a connection came
        ensures all { result ≡ given.All }
        ensures same { self.new ≡ self.old }
    {
        let _ = serial;
        Given::All
    }

    fn end(&mut self)
        requires { is_some self.old.current ≡ true }
        ensures busy { is_some self.new.current ≡ false }
        ensures past { Some self.new.past ≡ Some self.old.past }
        ensures faults { self.new.faults.count ≡ self.old.faults.count }

        // the rest of the script stays, and the call has no number
        ensures script { self.new.script ≡ self.old.script }
        ensures counted { self.new.faults ≡ self.old.faults }
    {
        self.current = None;
    }
}
