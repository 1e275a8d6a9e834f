ghost use Rattle.std.specs.Prelude.{◌≡◌, true, IfOk};
ghost use Rattle.cd_handlers.specs.Done.{effect_of, left_by};
ghost use Rattle.cd_handlers.specs.Effect.{effect, deferred, has_gone_on};

use crate::error::fail;
use crate::handler::Handler;
use crate::headers::change_fields;
use crate::outcome::{Deed, Done, Effect, deed_of};
use crate::rewriting::rewrite;
use crate::static_response::respond;
use crate::vars::set_variables;
use cd_fill::{Scene, let_go};
use cd_text::NoMemory;
use std::alloc::Global;

/// What a handler does with a request in a scene that is lent to it, and the changes that it leaves for the answer of what
/// follows it, where the request goes on. They are filled in the scene that it found.
#[tactic(auto, unfolding(crate::specs::Effect::effect, crate::specs::Effect::deferred))]
pub fn deed_in<'r>(
    alloc: Global,
    handler: &'r Handler,
    scene: &mut Scene<'r>,
) -> Result<Done<'r>, NoMemory>
    ensures effect { IfOk result (λ done. effect_of done scene.new ≡ effect handler.now scene.old) }
    ensures changes { IfOk result (λ done. has_gone_on (effect handler.now scene.old) ≡ true → left_by done ≡ deferred handler.now scene.old) }
{
    match handler {
        Handler::StaticResponse(settings) => respond(alloc, settings, scene),
        Handler::Headers(settings) => change_fields(alloc, settings, scene),
        Handler::Rewrite(settings) => rewrite(alloc, settings, scene),
        Handler::Vars(settings) => set_variables(alloc, settings, scene),
        Handler::Error(settings) => fail(alloc, settings, scene),
        Handler::Invoke(_) => Ok(Done::Goes),
    }
}

/// The same of a scene by value.
pub fn deed<'r>(
    alloc: Global,
    handler: &'r Handler,
    scene: Scene<'r>,
) -> Result<Deed<'r, 'r>, NoMemory>
    ensures effect { IfOk result (λ deed. deed.effect ≡ effect handler.now scene.entry) }
    ensures changes { IfOk result (λ deed. has_gone_on deed.effect ≡ true → deed.changes ≡ deferred handler.now scene.entry) }
{
    let mut scene = scene;
    match deed_in(alloc, handler, &mut scene) {
        Ok(done) => Ok(deed_of(done, scene)),
        Err(NoMemory) => Err(let_go(scene)),
    }
}

/// What a handler does by itself with a request in that scene.
pub fn effect<'r>(
    alloc: Global,
    handler: &'r Handler,
    scene: Scene<'r>,
) -> Result<Effect<'r>, NoMemory>
    ensures { IfOk result (λ made. made ≡ effect handler.now scene.entry) }
{
    let Deed { effect, changes: _ } = deed(alloc, handler, scene)?;
    Ok(effect)
}
