//! What the forms of `cd_stdio` make of devices that fail.
use crate::device::{Device, Unflushed};
use cd_outside::{Accepted, Given, Lane, Sink, Source, Taken};
use cd_stdio::{ConfigFile, ConfigSource, Console, StreamLane, put};
use std::alloc::Global;
use std::fs::{File, Files};
use std::sync::Wait;

/// An interrupted read is tried again. One that fails is answered as failed, and counted.
pub fn a_configuration_fails_in_the_middle() -> bool {
    let mut room = [0u8; 8];
    let mut source = ConfigSource::new(ConfigFile::Opened(Device::new()));
    source.read(&mut room) == Taken::Bytes(3)
        && source.read(&mut room) == Taken::Failed
        && source.faults == 1
}

/// An interrupted write is tried again. A piece of which only a part was written is answered as failed, and counted.
pub fn an_output_fails_in_the_middle() -> bool {
    let mut first = Console::new(Device::new());
    let mut second = Console::new(Device::new());
    first.write(b"abc") == Given::All
        && first.write(b"abc") == Given::Failed
        && second.write(b"abcd") == Given::Failed
        && second.faults == 1
}

/// Reads and writes of a connection fail and are counted in the same way, and no other connection comes after it. Where memory
/// runs out none comes at all, and that differs.
pub fn a_connection_fails_in_the_middle<R: Wait + Files<File = File>>(
    rt: &R,
    alloc: Global,
) -> bool {
    let mut room = [0u8; 8];
    let mut lane = StreamLane::new(rt, alloc, Device::new(), Device::new(), Device::new());
    let Accepted::Connection(_) = lane.accept() else {
        return false;
    };
    let moved = lane.read(&mut room) == Taken::Bytes(3)
        && lane.read(&mut room) == Taken::Failed
        && lane.write(b"abc") == Given::All
        && lane.write(b"abc") == Given::Failed
        && lane.faults == 2;
    lane.end();
    moved && lane.accept() == Accepted::Ended
}

/// A piece that could not be flushed is answered as failed, and counted.
pub fn an_output_fails_when_it_is_flushed() -> bool {
    let mut console = Console::new(Unflushed);
    console.write(b"abc") == Given::Failed && console.faults == 1
}

/// A piece that could not be written whole is given as far as it was written, and not at all where it could not be flushed.
pub fn a_failed_write_says_how_much_it_gave() -> bool {
    put(&mut Device::new(), b"abcd") == 3 && put(&mut Unflushed, b"abc") == 0
}
