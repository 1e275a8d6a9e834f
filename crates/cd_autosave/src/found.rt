ghost use Rattle.std.specs.Prelude.{◌≤◌};
ghost use Rattle.cd_tree.specs.Tree.{IsSound};
ghost use Rattle.cd_autosave.specs.declared.limits.TheConstants.{MAX_NUMBER};

use crate::Gate;
use cd_tree::Tree;

/// A configuration that was saved, as it was read.
#[derive(Drop)]
pub struct Record {
    pub number: u64,
    pub tree: Tree,
    pub ghost small: { number ≤ MAX_NUMBER },
    pub ghost sound: { IsSound tree },
}

/// What is found at a slot.
#[derive(Drop)]
pub struct Found {
    pub gate: Gate,
    /// What it holds, where it is open.
    pub held: Option<Record>,
}

/// What is found at both slots.
pub struct FoundSlots {
    pub first: Found,
    pub second: Found,
}
