//! What waits for an outcome.
ghost use Rattle.std.specs.Prelude.{◌≡◌, ◌≤◌, ◌+◌, ℕ, List, IfOk, MatchOption};
ghost use Rattle.cd_fill.specs.declared.scene.Scene.{Scene as SceneOf};
ghost use Rattle.cd_handlers.specs.Changes.{changed};
ghost use Rattle.cd_routes.specs.declared.outcome.Outcome.TheVariants as outcome;
ghost use Rattle.cd_routes.specs.Running.{with_error};
ghost use Rattle.cd_chain.specs.declared.place.Place.{Place as PlaceOf};
ghost use Rattle.cd_chain.specs.Places.{at, returning};
ghost use Rattle.cd_chain.specs.Steps.{frames_steps, steps_at, returning_steps};
ghost use Rattle.cd_chain.specs.Frames.{unwound};

use crate::place::{ErrorRoutes, Frame};
use cd_handlers::{FilledChanges, changed};
use cd_text::{List, NoMemory};
use cd_wire::Answer;
use std::alloc::Global;

fn with_changes<'r>(
    alloc: Global,
    changes: FilledChanges<'_>,
    answer: Answer<'r>,
) -> Result<Answer<'r>, NoMemory>
    ensures { IfOk result (λ made. made ≡ record answer.entry { fields = changed changes.entry answer.entry.fields }) }
{
    let Answer {
        status,
        fields,
        body,
        close,
    } = answer;
    let fields = changed(alloc, changes, fields)?;
    Ok(Answer {
        status,
        fields,
        body,
        close,
    })
}

/// The answer, with all the changes that wait for it: the last ones are made first.
#[tactic(auto, using(crate::proofs::Frames::unwound_push), unfolding(crate::specs::Frames::unwound, cd_routes::specs::Running::with_changes))]
pub(crate) fn answered<'r>(
    alloc: Global,
    frames: List<Frame<'r>>,
    answer: Answer<'r>,
) -> Result<Answer<'r>, NoMemory>
    ensures { IfOk result (λ made. (places : List PlaceOf) → outcome.Answered made ≡ unwound places frames.entry (outcome.Answered answer.entry)) }
{
    let mut frames = frames;
    let mut answer = answer;
    while let Some(frame) = frames.pop() {
        match frame {
            Frame::Changes(changes) => answer = with_changes(alloc, changes, answer)?,
            Frame::Catch(_) => {}
        }
    }
    Ok(answer)
}

/// What is done with a failure, after which the frames before it wait. None where nothing catches it.
#[tactic(auto, using(crate::proofs::Frames::unwound_push, crate::proofs::Frames::steps_push), unfolding(crate::specs::Frames::unwound, cd_routes::specs::Running::with_changes))]
pub(crate) fn caught(frames: &mut List<Frame<'_>>) -> Option<ErrorRoutes>
    ensures meaning { (places : List PlaceOf) (x : SceneOf) (status : ℕ) (message : List ℕ)
        → MatchOption result
        (unwound places frames.old (outcome.Failed x status message) ≡ outcome.Failed x status message)
        (λ errors. unwound places frames.old (outcome.Failed x status message)
        ≡ unwound places frames.new (at places errors.begin (returning places errors.returns) (with_error status message x))) }
    ensures less { (places : List PlaceOf) → MatchOption result (frames_steps places frames.new ≤ frames_steps places frames.old)
        (λ errors. 1 + (steps_at places errors.begin (returning_steps places errors.returns) + frames_steps places frames.new) ≤ frames_steps places frames.old) }
{
    while let Some(frame) = frames.pop() {
        match frame {
            Frame::Catch(errors) => return Some(errors),
            Frame::Changes(_) => {}
        }
    }
    None
}
