use crate::path::Path;
use cd_text::NoMemory;
use std::alloc::AllocError;
use thiserror::Error;

/// Why a text is no tree.
#[derive(Clone, Copy, Debug, PartialEq, Eq, Error)]
pub enum TreeFault {
    /// The bytes are not UTF-8, or have no reading as JSON (RFC 8259). A reading nests at most 127 levels and has no number
    /// beyond the range of a 64-bit float, also in a member that a later one replaces. `place_of_json_fault` says where.
    #[error("the text is not JSON")]
    NotJson,
    /// A number has a fraction or an exponent, is beyond -2^63 to 2^64 - 1, or is `-0`.
    #[error("a number is not a whole number in range")]
    FractionOrRange,
    /// Lists and objects nest more than `MAX_DEPTH` levels.
    #[error("lists and objects nest too deeply")]
    TooDeep,
    /// The text, or the compact text of its tree, has more than `MAX_TEXT_BYTES` bytes.
    #[error("the text is too long")]
    TooLong,
    /// Memory ran out.
    #[error("out of memory")]
    NoMemory,
}

impl From<NoMemory> for TreeFault {
    ghost use Rattle.std.specs.Prelude.{◌≡◌};
    ghost use Rattle.cd_tree.specs.declared.fault.TreeFault.TheVariants.{NoMemory as out_of_memory};

    ghost from_gives = { λ _ fault. fault ≡ out_of_memory };

    fn from(_: NoMemory) -> TreeFault {
        TreeFault::NoMemory
    }
}

impl From<AllocError> for TreeFault {
    ghost use Rattle.std.specs.Prelude.{◌≡◌};
    ghost use Rattle.cd_tree.specs.declared.fault.TreeFault.TheVariants.{NoMemory as out_of_memory};

    ghost from_gives = { λ _ fault. fault ≡ out_of_memory };

    fn from(_: AllocError) -> TreeFault {
        TreeFault::NoMemory
    }
}

/// Why an object of settings can't be read.
#[derive(Debug, Drop)]
pub enum FieldFault {
    /// A member has none of the names that are known here. The path leads to the least such member.
    UnknownMember(Path),
    /// The value is no object. The path leads to it.
    WrongKind(Path),
    /// A member that is needed is absent or null. The path leads to it.
    Missing(Path),
    /// Memory ran out.
    NoMemory,
}

impl From<NoMemory> for FieldFault {
    ghost use Rattle.std.specs.Prelude.{◌≡◌};
    ghost use Rattle.cd_tree.specs.declared.fault.FieldFault.TheVariants.{NoMemory as out_of_memory};

    ghost from_gives = { λ _ fault. fault ≡ out_of_memory };

    fn from(_: NoMemory) -> FieldFault {
        FieldFault::NoMemory
    }
}
