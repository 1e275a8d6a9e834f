ghost use Rattle.std.specs.Prelude.{◌≡◌, true};
ghost use Rattle.cd_handlers.specs.Done.{effect_of, left_by};
ghost use Rattle.cd_handlers.specs.Effect.{has_gone_on};

use crate::changes::FilledChanges;
use cd_fill::Scene;
use cd_text::Octets;
use cd_wire::Answer;

/// What a handler does by itself.
#[derive(Debug, Drop)]
pub enum Effect<'r> {
    /// The request goes on in this scene.
    Next(Scene<'r>),
    /// The request is answered.
    Answered(Answer<'r>),
    /// The handler fails in this scene, with a status and a message.
    Failed(Scene<'r>, u16, Octets),
}

/// What a handler does, and the changes that it leaves for the answer of what follows it.
#[derive(Debug, Drop)]
pub struct Deed<'a, 'r> {
    pub effect: Effect<'r>,
    pub changes: Option<FilledChanges<'a>>,
}

/// What a handler has done with a scene that was lent to it.
#[derive(Debug, Drop)]
pub enum Done<'r> {
    /// The request goes on in the scene.
    Goes,
    /// It goes on, and these changes are left for the answer of what follows.
    Leaves(FilledChanges<'r>),
    /// The request is answered.
    Answered(Answer<'r>),
    /// The handler fails in the scene, with a status and a message.
    Failed(u16, Octets),
}

/// The same with the scene, which is owned again.
pub(crate) fn deed_of<'r>(done: Done<'r>, scene: Scene<'r>) -> Deed<'r, 'r>
    ensures effect { result.effect ≡ effect_of done.entry scene.entry }
    ensures changes { has_gone_on result.effect ≡ true → result.changes ≡ left_by done.entry }
{
    match done {
        Done::Goes => Deed {
            effect: Effect::Next(scene),
            changes: None,
        },
        Done::Leaves(changes) => Deed {
            effect: Effect::Next(scene),
            changes: Some(changes),
        },
        Done::Answered(answer) => Deed {
            effect: Effect::Answered(answer),
            changes: None,
        },
        Done::Failed(status, message) => Deed {
            effect: Effect::Failed(scene, status, message),
            changes: None,
        },
    }
}
