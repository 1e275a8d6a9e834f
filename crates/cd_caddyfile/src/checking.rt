//! Whether a file is a Caddyfile.
ghost use Rattle.std.specs.Prelude.{Ok};
ghost use Rattle.cd_text.specs.Gives.{Gives};
ghost use Rattle.cd_text.specs.Steps.{◌▷◌};
ghost use Rattle.cd_caddyfile.specs.Adapting.{checked, out_of_memory};
ghost use Rattle.cd_caddyfile.specs.FileSites.{matchers_in};

use crate::fault::{CaddyfileFault, CaddyfileKind};
use crate::faults::read;
use crate::named::Matchers;
use cd_tree::MAX_TEXT_BYTES;
use std::alloc::Global;

/// Whether a file is a Caddyfile of this subset, or its first fault: `TooLong` at line 0, or that of its first line that has
/// one. The limits of its tree are not looked at.
pub fn check(alloc: Global, bytes: &[u8]) -> Result<(), CaddyfileFault>
    ensures { Gives out_of_memory result (checked bytes.now) }
{
    read_matchers(alloc, bytes)?;
    Ok(())
}

/// The matchers of a file, or its first fault, as `check` says it.
pub fn read_matchers(alloc: Global, bytes: &[u8]) -> Result<Matchers, CaddyfileFault>
    ensures { Gives out_of_memory result (checked bytes.now ▷ λ _. Ok (matchers_in bytes.now)) }
{
    if bytes.len() > MAX_TEXT_BYTES {
        return Err(CaddyfileFault {
            kind: CaddyfileKind::TooLong,
            line: 0,
        });
    }
    let read = read(alloc, bytes)?;
    match read.fault {
        None => Ok(read.matchers),
        Some(fault) => Err(fault),
    }
}
