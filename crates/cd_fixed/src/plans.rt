//! What configurations consist of.
ghost use Rattle.std.specs.Prelude.{◌≡◌, ◌≤◌, ◌∷◌, [], Bool, IfOk, length};
ghost use Rattle.cd_legal.specs.declared.plan.Plan.{Plan};

use cd_legal::Plan;
use cd_text::{List, NoMemory};
use std::alloc::Global;

/// What the two configurations of a set consist of.
pub trait Plans {
    /// The plan of the other configuration, or of the first one.
    ghost planned: { Bool → Plan };

    /// The same plan: at most three modules and two apps.
    fn plan(alloc: Global, other: bool) -> Result<Plan, NoMemory>
        ensures plan { IfOk result (λ plan. plan ≡ planned other) }
        ensures modules { IfOk result (λ plan. length plan.modules ≤ 3) }
        ensures apps { IfOk result (λ plan. length plan.apps ≤ 2) };
}

/// The list of one element.
pub fn list_of<T: Drop>(alloc: Global, first: T) -> Result<List<T>, NoMemory>
    ensures { IfOk result (λ list. list ≡ first ∷ []) }
{
    let mut list = List::new(alloc);
    list.push(first)?;
    Ok(list)
}
