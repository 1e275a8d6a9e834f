ghost use Rattle.std.specs.Prelude.{◌≡◌, IfOk, IsTrue, None};
ghost use Rattle.std.specs.Result.{result_map_both};
ghost use Rattle.cd_text.specs.Gives.{Gives};
ghost use Rattle.cd_ids.specs.Ids.{id_fault, index_of};

use crate::fault::IdFault;
use crate::index::Index;
use crate::names::are_distinct;
use crate::walk::walk;
use cd_text::{List, NoMemory};
use cd_tree::{Place, Tree};
use std::alloc::Global;

/// Whether a tree has an index, and the fault that `Index::build` answers where it has none.
///
/// Where there is no fault it makes no path and copies no text. It sorts the ids, so it takes n log n comparisons for n ids.
pub fn check(alloc: Global, tree: &Tree) -> Result<(), IdFault>
    ensures { Gives IdFault.NoMemory result (result_map_both (λ _. tt) (λ fault. fault) (index_of tree.now)) }
{
    if is_without_fault(alloc, tree)? {
        return Ok(());
    }
    Index::build(alloc, tree)?;
    Ok(())
}

// True only where there is no fault. `Index::build` says which fault there is, since a fault has paths.
fn is_without_fault(alloc: Global, tree: &Tree) -> Result<bool, NoMemory>
    ensures { IfOk result (λ good. IsTrue good → id_fault tree.now ≡ None) }
{
    let mut names = List::new(alloc);
    let at = Place::top();
    match walk(alloc, tree, &at, &mut names) {
        Ok(()) => Ok(are_distinct(names)),
        Err(IdFault::NoMemory) => Err(NoMemory),
        Err(_) => Ok(false),
    }
}
