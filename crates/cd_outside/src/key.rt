ghost use Rattle.std.specs.Prelude.{◌≡◌, ◌↔◌, IsTrue, IfOk};
ghost use Rattle.cd_outside.specs.Keys.{key_eq};

use crate::Address;
use cd_text::{NoMemory, Text};
use std::alloc::Global;

/// What fixtures open and close: a thing of the outside that a configuration holds while it runs.
#[derive(Debug, Drop, PartialEq, Eq)]
pub enum Key {
    /// A listening socket at this address.
    Listen(Address),
    /// A log writer: `stdout`, `stderr`, `discard`, or `file:` and a filename.
    Writer(Text),
}

impl Key {
    /// A copy.
    pub fn copy(&self, alloc: Global) -> Result<Key, NoMemory>
        ensures { IfOk result (λ key. key ≡ self.now) }
    {
        match self {
            Key::Listen(address) => Ok(Key::Listen(address.copy(alloc)?)),
            Key::Writer(name) => Ok(Key::Writer(name.copy(alloc)?)),
        }
    }

    /// Whether this is the key: of the same kind, with the same address or the same name.
    pub fn same(&self, other: &Key) -> bool
        ensures value { result ≡ key_eq self.now other.now }
        ensures same { IsTrue result ↔ (self.now ≡ other.now) }
    {
        match (self, other) {
            (Key::Listen(one), Key::Listen(two)) => {
                one.port == two.port && one.host.equals(two.host.as_str())
            }
            (Key::Listen(_), Key::Writer(_)) => false,
            (Key::Writer(_), Key::Listen(_)) => false,
            (Key::Writer(one), Key::Writer(two)) => one.equals(two.as_str()),
        }
    }
}
