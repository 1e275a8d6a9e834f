use cd_text::NoMemory;
use std::alloc::AllocError;

/// Why a text is not filled.
#[derive(Clone, Copy, Debug, PartialEq, Eq)]
pub enum FillFault {
    /// The filled text would have more than `MAX_FILLED_BYTES`.
    TooLong,
    NoMemory,
}

impl From<NoMemory> for FillFault {
    ghost use Rattle.std.specs.Prelude.{◌≡◌};
    ghost use Rattle.cd_fill.specs.declared.fault.FillFault.TheVariants.{NoMemory as out_of_memory};

    ghost from_gives = { λ _ fault. fault ≡ out_of_memory };

    fn from(_: NoMemory) -> FillFault {
        FillFault::NoMemory
    }
}

impl From<AllocError> for FillFault {
    ghost use Rattle.std.specs.Prelude.{◌≡◌};
    ghost use Rattle.cd_fill.specs.declared.fault.FillFault.TheVariants.{NoMemory as out_of_memory};

    ghost from_gives = { λ _ fault. fault ≡ out_of_memory };

    fn from(_: AllocError) -> FillFault {
        FillFault::NoMemory
    }
}
