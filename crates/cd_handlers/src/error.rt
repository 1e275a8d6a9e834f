ghost use Rattle.std.specs.Prelude.{◌≡◌, None, IfOk};
ghost use Rattle.cd_text.specs.Gives.{Gives};
ghost use Rattle.cd_handlers.specs.declared.fault.HandlerFault.{HandlerFault};
ghost use Rattle.cd_handlers.specs.Done.{effect_of, left_by};
ghost use Rattle.cd_handlers.specs.Error.{static_error, failure_filled, error_effect};

use crate::failing::unable;
use crate::fault::HandlerFault;
use crate::filling::text_filled;
use crate::outcome::Done;
use crate::status::{Status, status_given};
use crate::texts::no_text;
use cd_fill::{Failure, Scene};
use cd_module::{LoadFault, Settings, fields_of, optional};
use cd_text::{NoMemory, Text};
use cd_tree::{Place, Tree};
use std::alloc::Global;

/// `error`: it fails, so that error routes answer (Caddy, JSON Config Structure, http.handlers.error).
#[derive(Debug, Drop)]
pub struct StaticError {
    /// The text of the message.
    pub message: Text,
    /// The status of the failure, 500 where none is given.
    pub status: Option<Status>,
}

impl Settings for StaticError {
    ghost reader = { static_error };

    #[tactic(auto, unfolding(crate::specs::Error::static_error))]
    fn read(alloc: Global, tree: &Tree, at: &Place<'_>) -> Result<StaticError, LoadFault> {
        let fields = fields_of(alloc, tree, at, "handler error status_code")?;
        let message = optional::<Text>(alloc, &fields, at, "error")?;
        let status = optional::<Status>(alloc, &fields, at, "status_code")?;
        Ok(StaticError {
            message: message.unwrap_or(no_text(alloc)),
            status,
        })
    }
}

#[tactic(auto, unfolding(crate::specs::Error::failure_filled))]
fn failure_filled(
    alloc: Global,
    settings: &StaticError,
    scene: &Scene<'_>,
) -> Result<Failure, HandlerFault>
    ensures { Gives HandlerFault.NoMemory result (failure_filled settings.now scene.now) }
{
    let status = status_given(alloc, &settings.status, 500, scene)?;
    let message = text_filled(alloc, &settings.message, scene)?;
    Ok(Failure { status, message })
}

/// Fails with the status and the message of the settings.
#[tactic(auto, unfolding(crate::specs::Error::error_effect))]
pub(crate) fn fail<'r>(
    alloc: Global,
    settings: &StaticError,
    scene: &mut Scene<'_>,
) -> Result<Done<'r>, NoMemory>
    ensures effect { IfOk result (λ done. effect_of done scene.new ≡ error_effect settings.now scene.old) }
    ensures changes { IfOk result (λ done. left_by done ≡ None) }
{
    match failure_filled(alloc, settings, scene) {
        Ok(failure) => Ok(Done::Failed(failure.status, failure.message)),
        Err(fault) => unable(alloc, fault),
    }
}
