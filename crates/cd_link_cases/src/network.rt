//! The connections of a row, which lanes have in turn.
ghost use Rattle.std.specs.Prelude.{◌≡◌, ◌<◌, length, ℕ};
ghost use Rattle.cd_outside.specs.declared.given.Given.TheVariants.{Failed as Refused};
ghost use Rattle.cd_outside.specs.Counts.{Rises};
ghost use Rattle.cd_link.specs.declared.doorway.Next.TheVariants.{Failed};

use cd_link::{Doorway, Filled, Flushed, Link, MemoryStream, Next};
use cd_outside::{Address, Given, Key};
use cd_text::{List, Text};
use cd_wire::Look;
use std::alloc::Global;
use std::sync::{Mutex, Wait};
use std::thread;

/// Connections in memory that wait without a lane, in the order in which they are looked after, and those that are over.
pub struct Network {
    alloc: Global,
    // where each of them came to, by its number
    addresses: List<Address>,
    links: Mutex<Links>,
}

impl Drop for Network {
    fn drop(self) {
        let Self {
            alloc: _,
            addresses: _,
            links: _,
        } = self;
    }
}

/// The connections, as they are now.
#[derive(Drop)]
pub struct Links {
    waiting: List<Link<MemoryStream>>,
    pub over: List<Link<MemoryStream>>,
    // how many have a lane
    out: u32,
    // how often one is looked after still, before all are given up
    turns: u32,
    // how many bytes are received at once, at most: one at least
    room: usize,
}

// What comes of looking after a connection.
enum Turn {
    // A request has come on it.
    Due(Link<MemoryStream>),
    // Nothing for a lane.
    Nothing,
    // All connections are over.
    Over,
}

impl Network {
    /// A network of these connections, with the address of each by its number. So many turns are taken in all, and so many bytes are
    /// received at once.
    pub fn new(
        alloc: Global,
        addresses: List<Address>,
        waiting: List<Link<MemoryStream>>,
        turns: u32,
        room: usize,
    ) -> Network {
        Network {
            alloc,
            addresses,
            links: Mutex::new(Links {
                waiting,
                over: List::new(alloc),
                out: 0,
                turns,
                room,
            }),
        }
    }

    /// The connections that are over, once all lanes have ended.
    pub fn over<R: Wait>(&self, rt: &R) -> List<Link<MemoryStream>> {
        let mut links = self.links.lock(rt);
        std::mem::replace(&mut links.over, List::new(self.alloc))
    }

    fn turn<R: Wait>(&self, rt: &R) -> Turn {
        self.links.lock(rt).turn()
    }

    fn back<R: Wait>(&self, rt: &R, link: Link<MemoryStream>) {
        self.links.lock(rt).back(link);
    }

    // The address that a connection came to. There is none where memory runs out.
    fn address_of(&self, link: &Link<MemoryStream>) -> Option<Address> {
        let address = self.addresses.as_slice().get(link.stream().number())?;
        address.copy(self.alloc).ok()
    }
}

impl Links {
    // Looks after the connection that has waited longest.
    fn turn(&mut self) -> Turn {
        if self.waiting.is_empty() {
            return if self.out == 0 {
                Turn::Over
            } else {
                Turn::Nothing
            };
        }
        let mut link = self.waiting.remove(0);
        if self.is_time_up() {
            self.leave(link);
            return Turn::Nothing;
        }
        match seen_to(&mut link, self.room) {
            Seen::Due => {
                self.out = self.out.saturating_add(1);
                Turn::Due(link)
            }
            Seen::Waits => {
                let _ = self.waiting.push(link);
                Turn::Nothing
            }
            Seen::Over => {
                self.leave(link);
                Turn::Nothing
            }
        }
    }

    // Counts a turn where no lane has a connection: else something may come of it, however long that takes. It says whether all turns
    // are used up.
    fn is_time_up(&mut self) -> bool {
        if self.out == 0 {
            self.turns = self.turns.saturating_sub(1);
        }
        self.turns == 0
    }

    fn leave(&mut self, link: Link<MemoryStream>) {
        let _ = self.over.push(link);
    }

    fn back(&mut self, link: Link<MemoryStream>) {
        self.out = self.out.saturating_sub(1);
        let _ = self.waiting.push(link);
    }
}

// What becomes of a connection that has no lane.
enum Seen {
    // A lane is to have it.
    Due,
    // It waits on.
    Waits,
    // It is over.
    Over,
}

// Sends once, and once all is sent receives once, and looks what has come.
fn seen_to(link: &mut Link<MemoryStream>, room: usize) -> Seen {
    match link.flush() {
        Flushed::Done if link.goes_on() => receive(link, room),
        Flushed::Done => Seen::Over,
        Flushed::Later => Seen::Waits,
        Flushed::Failed => Seen::Over,
    }
}

fn receive(link: &mut Link<MemoryStream>, room: usize) -> Seen {
    let mut bytes = [0_u8; 64];
    let most = room.clamp(1, 64);
    if link.fill(&mut bytes[..most]) == Filled::Lacking {
        return Seen::Over;
    }
    match link.look() {
        Ok(Look::More) => Seen::Waits,
        Ok(Look::End) | Err(_) => Seen::Over,
        Ok(Look::Whole | Look::Cut | Look::Refused(_)) => Seen::Due,
    }
}

/// The doorway of a lane to a network.
pub struct NetworkDoor<'n, R> {
    pub rt: &'n R,
    pub network: &'n Network,
}

impl<'n, R> Drop for NetworkDoor<'n, R> {
    fn drop(self) {
        let Self { rt: _, network: _ } = self;
    }
}

impl<'n, R: Wait> Doorway<Link<MemoryStream>> for NetworkDoor<'n, R> {
    ghost faults = { λ _. 0 };

    fn next(&mut self) -> Next<Link<MemoryStream>> {
        for _ in self.rt.forever() {
            match self.network.turn(self.rt) {
                Turn::Due(link) => match self.network.address_of(&link) {
                    Some(address) => return Next::Connection(link, address),
                    None => self.network.back(self.rt, link),
                },
                Turn::Nothing => thread::yield_now(),
                Turn::Over => return Next::Shut,
            }
        }
        unreachable!()
    }

    fn back(&mut self, link: Link<MemoryStream>) {
        self.network.back(self.rt, link);
    }

    fn log(&mut self, _key: &Key, _line: &Text) -> Given {
        Given::All
    }
}
