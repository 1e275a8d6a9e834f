//! A lane over the connections of a doorway.
ghost use Rattle.std.specs.Prelude.{◌≡◌, ◌<◌, ◌≤◌, ◌++◌, ◌↔◌, [], ℕ, true, false, max, length, Option, Some, None, is_some, unwrap_or, option_map};
ghost use Rattle.std.specs.Option.{ForSome};
ghost use Rattle.cd_outside.specs.declared.accepted.Accepted.TheVariants as accepted;
ghost use Rattle.cd_outside.specs.declared.given.Given.TheVariants as given;
ghost use Rattle.cd_outside.specs.Counts.{Rises, raised};
ghost use Rattle.cd_outside.specs.Past.{after_accept, is_connection};
ghost use Rattle.cd_outside.specs.Since.{SinceAccept, CameWith};
ghost use Rattle.cd_link.specs.Lanes.{past_of, stretches, serials, last_serial, Comes};

use crate::living::unlived;
use crate::notes::GoesOn;
use crate::stretches::{Answers, Closes, Seen};
use crate::{Doorway, Link, Next, Stream, Told};
use cd_outside::{Accepted, Given, Key, Lane, Past, Received, Taken};
use cd_text::{List, Text};
use cd_wire::Intake;
use std::alloc::Global;
use std::sync::Wait;

/// A lane that serves the connections of a doorway, each from a request until nothing is left to answer, and then gives it back. It
/// reports its past, whatever the streams are, and of each connection the serial under which a request had last begun on it before it came.
pub struct LinkLane<S, D> {
    door: D,
    // the connection that is there
    held: Option<Link<S>>,
    // the stretches that are over
    over: Told<Past>,
    // of each connection that came, the serial under which a request had last begun on it before
    since: Told<List<u32>>,
    faults: u64,
    pub ghost begun: { is_some held ≡ true → 0 < length (stretches (option_map (λ link. link.life.value) held)) },
    /// The serial that is reported of the connection which is there is not later than the one that it has now.
    pub ghost none_later: { is_some held ≡ true → last_serial since.value ≤ unwrap_or (option_map (λ link. link.serial) held) 0 },
}

impl<S, D> LinkLane<S, D> {
    /// A lane that had no connection yet.
    pub fn new(alloc: Global, door: D) -> LinkLane<S, D>
        ensures idle { is_some result.held ≡ false }
        ensures over { result.over.value ≡ record { accept_faults = 0; last = None; connections = [] } }
        ensures since { result.since.value ≡ [] }
        ensures door { result.door ≡ door }
    {
        LinkLane {
            door,
            held: None,
            over: unlived(alloc),
            since: Told::of(&List::new(alloc)),
            faults: 0,
        }
    }
}

impl<S: Drop, D> LinkLane<S, D> {
    /// The doorway. A connection that is there is let go.
    pub fn into_door(self) -> D
        ensures { result ≡ self.door }
    {
        let LinkLane {
            door,
            held: _,
            over: _,
            since: _,
            faults: _,
        } = self;
        door
    }
}

impl<S: Drop, D: Drop> Drop for LinkLane<S, D> {
    fn drop(self) {
        let LinkLane {
            door: _,
            held: _,
            over: _,
            since: _,
            faults: _,
        } = self;
    }
}

impl<S: Stream, D: Doorway<Link<S>>> Lane for LinkLane<S, D> {
    ghost faults = { λ lane. lane.faults };

    ghost busy = { λ lane. is_some lane.held };

    ghost past = { λ lane. Some (past_of lane.over.value (option_map (λ link. link.life.value) lane.held)) };

    ghost since = { λ lane. Some lane.since.value };

    fn accept(&mut self) -> Accepted
        requires { is_some self.old.held ≡ false }
        ensures busy { is_some self.new.held ≡ is_connection result }
        ensures past { Some (past_of self.new.over.value (option_map (λ link. link.life.value) self.new.held))
            ≡ option_map (after_accept result) (Some (past_of self.old.over.value (option_map (λ link. link.life.value) self.old.held))) }
        ensures since { SinceAccept (Some self.old.since.value) result (Some self.new.since.value) }
        ensures cause { Rises self.old.faults self.new.faults (result ≡ accepted.Failed) }

        // of a connection that comes it reports the serial that the connection has
        ensures told { self.new.since.value ≡ self.old.since.value ++ serials (option_map (λ link. link.serial) self.new.held) }
    {
        let (accepted, held) = come(&mut self.door);
        self.over = self.over.then::<Answers, GoesOn>(&Answers {
            accepted: &accepted,
        });
        tell_serial(&mut self.since, &held);
        self.held = held;
        if let Accepted::Failed = accepted {
            self.faults = self.faults.saturating_add(1);
        }
        accepted
    }

    /// What has come can be had by `receive` alone: where there is some, this is a failure.
    #[tactic(auto, using(crate::proofs::LaneLemmas::ends_on))]
    fn read(&mut self, _into: &mut [u8]) -> Taken {
        let Some(link) = &mut self.held else {
            unreachable!();
        };
        if link.end_of_stretch() {
            Taken::End
        } else {
            self.faults = self.faults.saturating_add(1);
            Taken::Failed
        }
    }

    fn receive(&mut self, into: &mut Intake, _room: &mut [u8]) -> Received {
        let Some(link) = &mut self.held else {
            unreachable!();
        };
        let received = link.receive(into);
        if received == Received::Failed {
            self.faults = self.faults.saturating_add(1);
        }
        received
    }

    fn write(&mut self, piece: &[u8]) -> Given {
        let Some(link) = &mut self.held else {
            unreachable!();
        };
        let given = link.write(piece);
        if given == Given::Failed {
            self.faults = self.faults.saturating_add(1);
        }
        given
    }

    #[tactic(auto, using(crate::proofs::LaneLemmas::logs_on))]
    fn log(&mut self, key: &Key, line: &Text) -> Given {
        let given = self.door.log(key, line);
        let Some(link) = &mut self.held else {
            unreachable!();
        };
        link.note_line(given, key, line);
        if given == Given::Failed {
            self.faults = self.faults.saturating_add(1);
        }
        given
    }

    /// Nothing is kept here: the answer is `All`.
    #[tactic(auto, using(crate::proofs::LaneLemmas::keeps_all))]
    fn keep<R: Wait>(&mut self, _rt: &R, serial: u32, text: &[u8]) -> Given {
        let Some(link) = &mut self.held else {
            unreachable!();
        };
        link.note_keep(Given::All, serial, text);
        Given::All
    }

    fn seen(&mut self, serial: u32) -> Given
        requires { is_some self.old.held ≡ true }
        ensures busy { is_some self.new.held ≡ true }
        ensures past { Some (past_of self.new.over.value (option_map (λ link. link.life.value) self.new.held))
            ≡ Some (past_of self.old.over.value (option_map (λ link. link.life.value) self.old.held)) }
        ensures since { Some self.new.since.value ≡ Some self.old.since.value }
        ensures none_later { result ≡ given.All → (least : ℕ) → CameWith (Some self.old.since.value) least → least ≤ serial }
        ensures cause { Rises self.old.faults self.new.faults (result ≡ given.Failed) }

        // it fails exactly where a request has begun on the connection under a later serial
        ensures exact { ForSome self.old.held (λ link. result ≡ given.Failed ↔ serial < link.serial) }
        ensures held { ForSome self.old.held (λ link. self.new.held ≡ Some (record link { serial = max link.serial serial })) }
        ensures passed { result ≡ given.All → self.new.faults ≡ self.old.faults }
        ensures counted { result ≡ given.Failed → self.new.faults ≡ raised self.old.faults }
        ensures over { self.new.over.value ≡ self.old.over.value }
        ensures door { self.new.door ≡ self.old.door }
    {
        let Some(link) = &mut self.held else {
            unreachable!();
        };
        if link.seen(serial) {
            Given::All
        } else {
            self.faults = self.faults.saturating_add(1);
            Given::Failed
        }
    }

    fn end(&mut self) {
        let Some(link) = self.held.take() else {
            unreachable!();
        };
        self.over = self
            .over
            .then::<Closes, GoesOn>(&Closes { life: &link.life });
        self.door.back(link);
    }
}

// The next connection, of which a stretch begins.
#[tactic(auto, using(crate::proofs::LaneLemmas::last_added))]
fn come<S: Stream, D: Doorway<Link<S>>>(door: &mut D) -> (Accepted, Option<Link<S>>)
    ensures { Comes result.0 (option_map (λ link. link.life.value) result.1) }
{
    match door.next() {
        Next::Connection(mut link, address) => {
            link.begin(&address);
            (Accepted::Connection(address), Some(link))
        }
        Next::Shut => (Accepted::Ended, None),
        Next::Failed => (Accepted::Failed, None),
    }
}

// Reports the serial of a connection that comes.
fn tell_serial<S>(since: &mut Told<List<u32>>, held: &Option<Link<S>>)
    ensures { since.new.value ≡ since.old.value ++ serials (option_map (λ link. link.serial) held.now) }
{
    if let Some(link) = held {
        *since = since.then::<Seen, GoesOn>(&Seen {
            serial: link.serial(),
        });
    }
}
