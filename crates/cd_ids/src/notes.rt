ghost use Rattle.std.specs.Prelude.{ℕ, List, Result};
ghost use Rattle.std.specs.Result.{result_map_both};
ghost use Rattle.cd_text.specs.Gives.{Gives};
ghost use Rattle.cd_tree.specs.declared.path.Path.{Path};
ghost use Rattle.cd_ids.specs.declared.fault.IdFault.{IdFault as Fault};

use crate::fault::IdFault;
use cd_tree::{Place, SharedText};
use std::alloc::Global;

/// What the walk over a tree notes ids in. The text of an id is shared with the tree, so it may be kept without a copy.
pub(crate) trait Notes {
    /// What is noted after one more id, or the fault of that id.
    ghost with: { Self → List ℕ → Path → Result Self Fault };

    /// Notes the id of the object at a place.
    fn note(&mut self, alloc: Global, id: SharedText, at: &Place<'_>) -> Result<(), IdFault>
        ensures { Gives Fault.NoMemory (result_map_both (λ _. self.new) (λ fault. fault) result)
            (with self.old id at.now) };
}
