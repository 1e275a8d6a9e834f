use cd_outside::{Key, Pair};
use std::marker::Model;

/// Names one pair of a pool. Contracts see its number. It must be given back.
pub struct Lease {
    pub(crate) number: usize,
}

impl Model for Lease {
    ghost use Rattle.std.specs.Prelude.{ℕ};

    ghost Value = { ℕ };

    ghost view = { λ lease. lease.number };
}

/// A pair with the number of its lease.
#[derive(Drop)]
pub struct Leased {
    pub number: usize,
    pub pair: Pair,
}

/// Whether a key that was taken had a pair before.
#[derive(Clone, Copy, Debug, PartialEq, Eq)]
pub enum Took {
    /// Nobody had it.
    First,
    /// Somebody has it.
    Shared,
}

/// Whether a key that was given back has a pair left.
#[derive(Debug, Drop)]
pub enum Gave {
    /// Nobody has it any more: this is the key, to be closed.
    Last(Key),
    /// Somebody has it still.
    Still,
}
