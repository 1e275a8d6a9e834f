//! What becomes of a handler that does not do what its settings say.
ghost use Rattle.std.specs.Prelude.{◌≡◌, ◌≢◌, [], IfOk};
ghost use Rattle.cd_handlers.specs.declared.fault.HandlerFault.{HandlerFault};
ghost use Rattle.cd_handlers.specs.declared.outcome.Done.TheVariants as does;

use crate::fault::HandlerFault;
use crate::outcome::Done;
use cd_text::{NoMemory, Octets};
use std::alloc::Global;

/// A handler that is unable fails with 500 and an empty message, in the scene that it found.
pub(crate) fn unable<'r>(alloc: Global, fault: HandlerFault) -> Result<Done<'r>, NoMemory>
    ensures fault { IfOk result (λ _. fault ≢ HandlerFault.NoMemory) }
    ensures done { IfOk result (λ done. done ≡ does.Failed 500 []) }
{
    match fault {
        HandlerFault::Unable => Ok(Done::Failed(500, Octets::new(alloc))),
        HandlerFault::NoMemory => Err(NoMemory),
    }
}
