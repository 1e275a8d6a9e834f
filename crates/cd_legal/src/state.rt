use crate::Plan;
use cd_outside::{Key, Pair};
use cd_text::List;
use cd_tree::Tree;

/// What a history leaves.
#[derive(Drop)]
pub struct State {
    /// The serial of the current configuration: 0 for the opening one, and one more by each publishing and by the halt.
    pub serial: u32,
    /// Whether the host has halted.
    pub halted: bool,
    /// The draft of serial s, at place s - 1.
    pub published: List<u64>,
    /// Each draft, by its number.
    pub drafts: List<Drafted>,
    /// The open tickets: the requests that run.
    pub tickets: List<OpenTicket>,
    /// The retired serials, in the order of their retiring.
    pub retired: List<u32>,
    /// Who holds which key.
    pub pairs: List<Pair>,
}

/// Whether a draft may still be made, runs or ran, or was given up.
#[derive(Clone, Copy, Debug, PartialEq, Eq)]
pub enum Life {
    Live,
    /// With this serial.
    Published(u32),
    Abandoned,
}

/// A draft, and how far it has come. Apps stop and instances are cleaned last first, so these are counts.
///
/// Counts have 64 bits: a place has 32, and the count is one more than the last place.
#[derive(Drop)]
pub struct Drafted {
    pub tree: Tree,
    pub plan: Plan,
    /// How many instances are made.
    pub made: u64,
    /// How many apps are started.
    pub started: u64,
    /// The key that could not be opened. Its instance or app counts as made or started.
    pub failed: Option<Key>,
    pub life: Life,
    /// How many of the apps that were started are stopped.
    pub stopped: u64,
    /// How many of the instances that were made are cleaned.
    pub cleaned: u64,
}

/// A request that runs: which pass has begun it, and under which serial.
#[derive(Clone, Copy, Debug, PartialEq, Eq)]
pub struct OpenTicket {
    pub caller: u32,
    pub serial: u32,
}
