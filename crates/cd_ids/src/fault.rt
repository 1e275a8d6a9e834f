use cd_text::{NoMemory, Text};
use cd_tree::Path;
use std::alloc::AllocFailed;

/// Why a tree has no index of its ids.
#[derive(Debug, Drop)]
pub enum IdFault {
    /// Two objects have this id. The paths lead to the first and the second, in the order of the walk.
    Repeated(Text, Path, Path),
    /// An `@id` is neither a text nor a whole number nor null. The path leads to it.
    BadKind(Path),
    /// Memory ran out.
    NoMemory,
}

impl From<NoMemory> for IdFault {
    ghost use Rattle.std.specs.Prelude.{◌≡◌};
    ghost use Rattle.cd_ids.specs.declared.fault.IdFault.TheVariants.{NoMemory as out_of_memory};

    ghost from_gives = { λ _ fault. fault ≡ out_of_memory };

    fn from(_: NoMemory) -> IdFault {
        IdFault::NoMemory
    }
}

impl<T: Drop> From<AllocFailed<T>> for IdFault {
    ghost use Rattle.std.specs.Prelude.{◌≡◌};
    ghost use Rattle.cd_ids.specs.declared.fault.IdFault.TheVariants.{NoMemory as out_of_memory};

    ghost from_gives = { λ _ fault. fault ≡ out_of_memory };

    fn from(_: AllocFailed<T>) -> IdFault {
        IdFault::NoMemory
    }
}
