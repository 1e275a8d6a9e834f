ghost use Rattle.std.specs.Prelude.{◌≡◌, ◌↔◌, IsTrue};
ghost use Rattle.cd_outside.specs.Keys.{holder_eq};

use crate::Key;

/// Who holds a key: an instance of a module, or an app, of one draft of a configuration.
#[derive(Clone, Copy, Debug, PartialEq, Eq)]
pub struct Holder {
    /// The draft's number, counted from 0.
    pub draft: u64,
    /// Whether an app holds the key, and not an instance of a module.
    pub app: bool,
    /// The place of the app or the instance in its draft, counted from 0.
    pub place: u32,
}

impl Holder {
    /// Whether this is the holder: the same app or the same instance of the same draft.
    pub fn same(&self, other: &Holder) -> bool
        ensures value { result ≡ holder_eq self.now other.now }
        ensures same { IsTrue result ↔ (self.now ≡ other.now) }
    {
        self.draft == other.draft && self.app == other.app && self.place == other.place
    }
}

/// A key with one that holds it.
#[derive(Debug, Drop, PartialEq, Eq)]
pub struct Pair {
    pub key: Key,
    pub holder: Holder,
}
