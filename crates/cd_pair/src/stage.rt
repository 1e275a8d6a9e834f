//! Where passes are at work.
use cd_gate::Pass;
use cd_hall::Hall;
use cd_life::Board;
use cd_module_set::ModuleSet;
use cd_outside::{Key, MemoryFixtures};
use cd_text::NoMemory;
use std::alloc::Global;

/// The board of a hall with fixtures in memory.
pub type Table<M> = Board<M, MemoryFixtures>;

/// A pass of such a hall.
pub type Player<M> = Pass<Table<M>>;

/// The hall of passes, and what their calls need besides: the runtime, by which they wait, and the allocator.
#[derive(Drop)]
pub struct Stage<'a, R, M: ModuleSet> {
    pub rt: &'a R,
    pub alloc: Global,
    pub hall: &'a Hall<M, MemoryFixtures>,
}

/// Two passes of a hall, the first of which has the number 0, and the second the number 1.
pub struct Pair<T> {
    pub one: Pass<T>,
    pub two: Pass<T>,
}

/// Why a call did not do what it was to do.
#[derive(Drop)]
pub enum Refused {
    /// A later configuration is there, with this serial.
    Superseded(u32),
    /// This serial is still in use.
    Full(u32),
    Exhausted,
    NoMemory,
    /// The host is halted, or is not where it was to be.
    Halted,
    /// This key could not be opened.
    Closed(Key),
}

impl From<NoMemory> for Refused {
    fn from(_: NoMemory) -> Refused {
        Refused::NoMemory
    }
}
