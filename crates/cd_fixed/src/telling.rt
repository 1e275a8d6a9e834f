//! The calls of fixtures are printed.
use cd_outside::{FixtureCall, Key, MemoryFixtures};
use std::io;

/// All calls in their order, and the end of the line: + is an opening, ! one that failed, and - a closing.
pub fn tell_calls(rt: &impl Print, fixtures: &MemoryFixtures) -> io::Result<()> {
    for call in fixtures.calls().as_slice() {
        tell_call(rt, call)?;
    }
    println!(rt; "")
}

fn tell_call(rt: &impl Print, call: &FixtureCall) -> io::Result<()> {
    match call {
        FixtureCall::Opened(key) => tell_key(rt, "+", key),
        FixtureCall::NotOpened(key) => tell_key(rt, "!", key),
        FixtureCall::Closed(key) => tell_key(rt, "-", key),
        FixtureCall::Shut => print!(rt; " shut"),
    }
}

/// The port of an address, or the name of a writer, after a sign.
pub fn tell_key(rt: &impl Print, sign: &str, key: &Key) -> io::Result<()> {
    match key {
        Key::Listen(address) => {
            let port = address.port;
            print!(rt; " {sign}{port}")
        }
        Key::Writer(name) => {
            let name = name.as_str();
            print!(rt; " {sign}{name}")
        }
    }
}
