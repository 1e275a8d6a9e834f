ghost use Rattle.std.specs.Prelude.{◌≡◌};
ghost use Rattle.cd_legal.specs.Entry.{signed};

use crate::Plan;
use cd_outside::Key;
use cd_tree::Tree;
use cd_wire::Request;

/// Why a configuration is published.
#[derive(Drop)]
pub enum Change {
    /// It is the program's first.
    First,
    /// This request asks for it.
    Request(Request),
}

/// One atomic action on the configurations of a server. Drafts, and the instances and apps of one, are counted from 0, and
/// serials from 0 for the opening configuration.
#[derive(Drop)]
pub enum Entry {
    /// A draft (its number) is made for a tree, with its plan.
    Draft(u64, Tree, Plan),
    /// Of a draft an instance (its place) is made; how many keys it has taken, and the key that could not be opened.
    Made(u64, u32, u32, Option<Key>),
    /// Of a draft an app (its place) is started, in the same way.
    Started(u64, u32, u32, Option<Key>),
    /// A draft becomes the configuration with a serial, from the serial before it, by a change.
    Publish(u64, u32, u32, Change),
    /// A draft is given up.
    Abandon(u64),
    /// Of a draft an app is stopped, and gives its keys back.
    Stopped(u64, u32),
    /// A pass begins a request under a serial.
    Begin(u32, u32),
    /// A pass ends its request.
    Finish(u32),
    /// A superseded serial has no request any more.
    Retire(u32),
    /// Of a draft an instance is cleaned, and gives its keys back.
    Cleaned(u64, u32),
    /// The host halts; the serial is the last one plus one, and nothing runs under it.
    Halt(u32),
}

/// An entry with the number of the pass whose call made it.
#[derive(Drop)]
pub struct Signed {
    pub by: u32,
    pub entry: Entry,
}

impl Signed {
    /// The entry, signed by the pass with this number.
    pub fn new(by: u32, entry: Entry) -> Signed
        ensures { result ≡ signed by entry }
    {
        Signed { by, entry }
    }
}
