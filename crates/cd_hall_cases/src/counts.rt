// What fixtures were asked for.
use cd_outside::{FixtureCall, MemoryFixtures};

/// How many calls there were of each kind.
#[derive(Drop)]
pub struct Counts {
    pub opened: u32,
    pub closed: u32,
    pub shut: u32,
}

/// Counts the calls.
pub fn count(fixtures: &MemoryFixtures) -> Counts {
    let mut counts = Counts {
        opened: 0,
        closed: 0,
        shut: 0,
    };
    for call in fixtures.calls().as_slice() {
        match call {
            FixtureCall::Opened(_) => counts.opened = counts.opened.wrapping_add(1),
            FixtureCall::NotOpened(_) => {}
            FixtureCall::Closed(_) => counts.closed = counts.closed.wrapping_add(1),
            FixtureCall::Shut => counts.shut = counts.shut.wrapping_add(1),
        }
    }
    counts
}
