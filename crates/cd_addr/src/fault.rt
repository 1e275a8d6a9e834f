use cd_text::NoMemory;
use thiserror::Error;

/// Why a text writes no addresses.
#[derive(Clone, Copy, Debug, PartialEq, Eq, Error)]
pub enum AddrFault {
    /// The network is not `tcp`, or the host is none.
    #[error("bad network or host")]
    BadNetwork,
    /// No colon and port follow the host, or a port is not a decimal from 1 to `MAX_PORT` without leading zeros.
    #[error("bad port")]
    BadPort,
    /// The last port is below the first, or there are more than `MAX_RANGE_PORTS`.
    #[error("bad range of ports")]
    BadRange,
    /// Memory ran out.
    #[error("out of memory")]
    NoMemory,
}

impl From<NoMemory> for AddrFault {
    ghost use Rattle.std.specs.Prelude.{◌≡◌};
    ghost use Rattle.cd_addr.specs.declared.fault.AddrFault.TheVariants.{NoMemory as out_of_memory};

    ghost from_gives = { λ _ fault. fault ≡ out_of_memory };

    fn from(_: NoMemory) -> AddrFault {
        AddrFault::NoMemory
    }
}
