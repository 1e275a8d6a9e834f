use cd_text::NoMemory;
use thiserror::Error;

/// Why a path leads nowhere, or why an edit is refused.
#[derive(Clone, Copy, PartialEq, Eq, Debug, Error)]
pub enum EditFault {
    /// PATCH or DELETE of a key that is absent, or of the tree null at the empty path.
    #[error("there is no such key")]
    NoSuchKey,
    /// PUT of a key that is present, null too, or of a tree that is not null at the empty path.
    #[error("the key is there already")]
    KeyExists,
    /// A part that names an element of a list is no decimal without sign and leading zero.
    #[error("a part is no position of a list")]
    BadIndex,
    /// A position is not below the length of its list. For PUT a last one may be the length.
    #[error("a position is out of bounds")]
    OutOfBounds,
    /// A part, other than a last `...`, goes into a value that is neither a list nor an object.
    #[error("a value on the way is neither a list nor an object")]
    NotTraversable,
    /// POST with a last part `...`, and there is no list.
    #[error("there is no list to append to")]
    NotAList,
    /// The same, and the body is no list.
    #[error("the body is no list")]
    BodyNotList,
    /// POST at a position of a list.
    #[error("a position of a list takes no POST")]
    PositionPost,
    /// POST, PUT or PATCH without a body.
    #[error("the body is missing")]
    BodyMissing,
    /// The last part is `...`, and the call is no POST.
    #[error("only POST takes a last part `...`")]
    EllipsisVerb,
    /// Lists and objects of the result nest more than `cd_tree::MAX_DEPTH` levels.
    #[error("the result nests too deeply")]
    ResultTooDeep,
    /// The compact text of the result has more than `cd_tree::MAX_TEXT_BYTES` bytes.
    #[error("the result is too long")]
    ResultTooLong,
    /// Memory ran out.
    #[error("out of memory")]
    NoMemory,
}

impl From<NoMemory> for EditFault {
    ghost use Rattle.std.specs.Prelude.{◌≡◌};
    ghost use Rattle.cd_path.specs.declared.fault.EditFault.TheVariants.{NoMemory as out_of_memory};

    ghost from_gives = { λ _ fault. fault ≡ out_of_memory };

    fn from(_: NoMemory) -> EditFault {
        EditFault::NoMemory
    }
}
