ghost use Rattle.std.specs.Prelude.{◌≡◌, ◌<◌, ◌≤◌, ◌+◌, ◌-◌, length};
ghost use Rattle.cd_legal.specs.declared.limits.TheConstants.{MAX_MODULES};
ghost use Rattle.cd_legal.specs.State.{part_keys};
ghost use Rattle.cd_desk.specs.Waiting.{Wait, Spent};

use crate::instance::Instance;
use cd_legal::{Part, Plan};
use std::snapshot::Snapshot;

/// The instances of a draft, or its apps, in the order of the plan: those that are opened come before those that wait. Once each
/// that was opened is ended, they may be gone.
pub struct Line {
    pub(crate) part: Part,
    pub(crate) plan: Snapshot<Plan>,
    pub(crate) parts: Vec<Instance>,
    // how many are opened: made, or started
    pub(crate) opened: u32,
    // how many of these are ended: cleaned, or stopped
    pub(crate) ended: u32,
    ghost over: { ended ≤ opened },
    ghost all: { 0 < length parts.items → length (part_keys part plan.value) ≡ length parts.items },
    ghost within: { ended < opened → opened ≤ length parts.items },
    ghost bound: { length parts.items ≤ MAX_MODULES + 1 },
    ghost wait: { Wait opened parts.items (part_keys part plan.value) },
    ghost spent: { Spent (opened - ended) parts.items },
}
