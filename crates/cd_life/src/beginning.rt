ghost use Rattle.std.specs.Prelude.{◌≡◌, ◌<◌, ◌≤◌, [], IfOk, IfErr, length};
ghost use Rattle.cd_legal.specs.declared.limits.TheConstants.{MAX_PASSES};
ghost use Rattle.cd_desk.specs.Desks.{none_open};
ghost use Rattle.cd_life.specs.Standing.{Stood};

use crate::board::Board;
use crate::share::Nothing;
use cd_desk::{Desk, NoDesk};
use cd_module_set::ModuleSet;
use cd_outside::Fixtures;
use cd_text::NoMemory;
use cd_tree::Tree;
use std::alloc::Global;
use std::sync::Arc;

/// Out of memory for a board. It hands the fixtures back.
pub struct NoBoard<F> {
    pub fixtures: F,
}

// The configuration before the first.
fn nothing<M: ModuleSet>(alloc: Global) -> Result<Arc<Nothing<M>>, NoMemory> {
    let compiled = M::nothing(alloc)?;
    let tree = Tree::Null;
    Ok(Arc::new(alloc, Nothing { tree, compiled })?)
}

impl<M: ModuleSet, F: Fixtures> Board<M, F> {
    /// A board at which nothing has happened, with places for the requests of the callers 0 to `callers` - 1, of which there
    /// are 1 to `MAX_PASSES`.
    pub fn new(alloc: Global, fixtures: F, callers: u32) -> Result<Board<M, F>, NoBoard<F>>
        requires some { 0 < callers }
        requires few { callers ≤ MAX_PASSES }
        ensures stands { IfOk result (λ board. Stood F.calls F.faults M.plan M.change board board []) }
        ensures fixtures { IfOk result (λ board. board.desk.fixtures ≡ fixtures) }
        ensures callers { IfOk result (λ board. length board.desk.tickets.by_caller.items ≡ callers) }
        ensures err { IfErr result (λ fault. fault.fixtures ≡ fixtures) }
    {
        let Ok(opening) = nothing::<M>(alloc) else {
            return Err(NoBoard { fixtures });
        };
        let desk = match Desk::new(alloc, fixtures, callers) {
            Ok(desk) => desk,
            Err(NoDesk { fixtures }) => return Err(NoBoard { fixtures }),
        };
        let kept = Vec::new(alloc);
        Ok(Board {
            desk,
            opening,
            kept,
            live: 0,
        })
    }
}
