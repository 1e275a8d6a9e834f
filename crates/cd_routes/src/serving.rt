ghost use Rattle.std.specs.Prelude.{◌≡◌, IfOk};
ghost use Rattle.cd_routes.specs.Invoking.{HasNoCycle};
ghost use Rattle.cd_routes.specs.Named.{named_routes};
ghost use Rattle.cd_routes.specs.Running.{nothing_left, run_routes, with_error};
ghost use Rattle.cd_routes.specs.Serving.{answer_from, error_answer, restored, server_answer};

use crate::named::NamedRoute;
use crate::outcome::{Outcome, bare_answer};
use crate::route::Route;
use crate::running::{run_routes, with_error};
use crate::server::Server;
use cd_fill::{Scene, copy_fields, let_go, response_of};
use cd_text::{NoMemory, Octets};
use cd_wire::{Answer, Request};
use std::alloc::Global;
use std::mem::replace;

fn restored<'r>(scene: Scene<'r>) -> Scene<'r>
    ensures { result ≡ restored scene.entry }
{
    let mut scene = scene;
    match replace(&mut scene.original, None) {
        Some(line) => Scene {
            current: line,
            ..scene
        },
        None => scene,
    }
}

// What error routes answer. The first error's fields are kept for the case that they fail too.
fn error_answer<'r>(
    alloc: Global,
    named: &'r [NamedRoute],
    errors: &'r [Route],
    scene: Scene<'r>,
    status: u16,
    message: Octets,
) -> Result<Answer<'r>, NoMemory>
    requires { HasNoCycle named.now }
    ensures { IfOk result (λ answer. answer
        ≡ error_answer scene.entry status (run_routes (named_routes named.now) errors.now nothing_left (with_error status message (restored scene.entry)))) }
{
    let Ok(fields) = copy_fields(alloc, scene.response.as_slice()) else {
        return Err(let_go(scene));
    };
    let scene = with_error(status, message, restored(scene));
    match run_routes(alloc, named, errors, scene)? {
        Outcome::Answered(answer) => Ok(answer),
        Outcome::Failed(again, _, _) => {
            let_go(again);
            Ok(bare_answer(status, fields))
        }
    }
}

/// What the server answers to a request that has come to this scene. No named route may lead to itself: `Server::first_in_cycle`
/// says whether one does.
#[tactic(auto, unfolding(crate::specs::Serving::answer_with))]
pub fn answer_from<'r>(
    alloc: Global,
    server: &'r Server,
    scene: Scene<'r>,
) -> Result<Answer<'r>, NoMemory>
    requires { HasNoCycle (server.now).named }
    ensures { IfOk result (λ answer. answer ≡ answer_from server.now scene.entry) }
{
    match run_routes(
        alloc,
        server.named.as_slice(),
        server.routes.as_slice(),
        scene,
    )? {
        Outcome::Answered(answer) => Ok(answer),
        Outcome::Failed(scene, status, message) => match &server.errors {
            None => Ok(bare_answer(status, response_of(scene))),
            Some(errors) => error_answer(
                alloc,
                server.named.as_slice(),
                errors.as_slice(),
                scene,
                status,
                message,
            ),
        },
    }
}

/// What the server answers to a request: every request has an answer, and there is no other error than want of memory. No named
/// route may lead to itself.
pub fn server_answer<'r>(
    alloc: Global,
    server: &'r Server,
    request: &'r Request,
) -> Result<Answer<'r>, NoMemory>
    requires { HasNoCycle (server.now).named }
    ensures { IfOk result (λ answer. answer ≡ server_answer server.now request.now) }
{
    let scene = Scene::new(alloc, request)?;
    answer_from(alloc, server, scene)
}
