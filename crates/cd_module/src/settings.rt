ghost use Rattle.std.specs.Prelude.{Result};
ghost use Rattle.cd_text.specs.Gives.{Gives};
ghost use Rattle.cd_module.specs.declared.fault.LoadFault.{LoadFault};
ghost use Rattle.cd_tree.specs.declared.path.Path.{Path};
ghost use Rattle.cd_tree.specs.declared.tree.Tree.{Tree};

use crate::fault::LoadFault;
use cd_tree::{Place, Tree};
use std::alloc::Global;

/// Settings that are read out of a value of a tree.
pub trait Settings: Sized + Drop {
    ghost reader: { Tree → Path → Result Self LoadFault };

    /// The settings of the value at this place, or the first fault there.
    fn read(alloc: Global, tree: &Tree, at: &Place<'_>) -> Result<Self, LoadFault>
        ensures { Gives LoadFault.NoMemory result (reader tree.now at.now) };
}
