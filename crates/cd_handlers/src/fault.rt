use cd_fill::FillFault;
use cd_text::NoMemory;

/// Why a handler does not do what its settings say.
#[derive(Clone, Copy, Debug, PartialEq, Eq)]
pub(crate) enum HandlerFault {
    /// A text is too long when it is filled, or a filled status is none: the handler fails with 500 and an empty message.
    Unable,
    NoMemory,
}

impl From<NoMemory> for HandlerFault {
    ghost use Rattle.std.specs.Prelude.{◌≡◌};
    ghost use Rattle.cd_handlers.specs.declared.fault.HandlerFault.TheVariants.{NoMemory as out_of_memory};

    ghost from_gives = { λ _ fault. fault ≡ out_of_memory };

    fn from(_: NoMemory) -> HandlerFault {
        HandlerFault::NoMemory
    }
}

impl From<FillFault> for HandlerFault {
    ghost use Rattle.std.specs.Prelude.{◌≡◌};
    ghost use Rattle.cd_handlers.specs.Filling.{of_fill};

    ghost from_gives = { λ fault made. made ≡ of_fill fault };

    fn from(fault: FillFault) -> HandlerFault {
        match fault {
            FillFault::TooLong => HandlerFault::Unable,
            FillFault::NoMemory => HandlerFault::NoMemory,
        }
    }
}
