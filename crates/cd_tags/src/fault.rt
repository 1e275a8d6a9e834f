use cd_path::EditFault;
use cd_text::NoMemory;
use std::alloc::AllocError;
use thiserror::Error;

/// Why there is no tag.
#[derive(Clone, Copy, Debug, PartialEq, Eq)]
pub enum TagFault {
    /// The path leads nowhere, with the refusal of `cd_path::look`.
    NoPlace(EditFault),
    NoMemory,
}

/// Why a value of If-Match gives no tag.
#[derive(Clone, Copy, Debug, PartialEq, Eq, Error)]
pub enum IfMatchFault {
    /// It does not have the form of a tag.
    #[error("If-Match does not have the form of a tag")]
    Malformed,
    #[error("out of memory")]
    NoMemory,
}

impl From<NoMemory> for TagFault {
    ghost use Rattle.std.specs.Prelude.{◌≡◌};
    ghost use Rattle.cd_tags.specs.declared.fault.TagFault.TheVariants.{NoMemory as out_of_memory};

    ghost from_gives = { λ _ fault. fault ≡ out_of_memory };

    fn from(_: NoMemory) -> TagFault {
        TagFault::NoMemory
    }
}

impl From<NoMemory> for IfMatchFault {
    ghost use Rattle.std.specs.Prelude.{◌≡◌};
    ghost use Rattle.cd_tags.specs.declared.fault.IfMatchFault.TheVariants.{NoMemory as out_of_memory};

    ghost from_gives = { λ _ fault. fault ≡ out_of_memory };

    fn from(_: NoMemory) -> IfMatchFault {
        IfMatchFault::NoMemory
    }
}

impl From<AllocError> for IfMatchFault {
    ghost use Rattle.std.specs.Prelude.{◌≡◌};
    ghost use Rattle.cd_tags.specs.declared.fault.IfMatchFault.TheVariants.{NoMemory as out_of_memory};

    ghost from_gives = { λ _ fault. fault ≡ out_of_memory };

    fn from(_: AllocError) -> IfMatchFault {
        IfMatchFault::NoMemory
    }
}
