ghost use Rattle.std.specs.Prelude.{◌≡◌, [], ◌∷◌, IfOk};
ghost use Rattle.cd_fill.specs.Scene.{line_of, server_field, scene_of, original_line};

use crate::request_line::lent_query;
use crate::uri::uri_of;
use crate::{Failure, RequestLine, Variable};
use cd_text::{List, NoMemory, Text};
use cd_wire::{Field, Lent, Request, RequestFields};
use std::alloc::Global;

/// The state of a request on its way through the routes. What handlers have not changed is lent by the request.
#[derive(Debug, Drop)]
pub struct Scene<'r> {
    /// What is asked for, as handlers have left it.
    pub current: RequestLine<'r>,
    /// What was asked for at first, once something is rewritten. Until then `current` is that too: see `original_line`.
    pub original: Option<RequestLine<'r>>,
    /// The host that is asked for, with its port where one is named.
    pub host: Lent<'r, u8>,
    /// The second number of the version: 1 for HTTP/1.1.
    pub minor: u8,
    /// The fields of the request.
    pub fields: RequestFields<'r>,
    /// The body of the request.
    pub body: Lent<'r, u8>,
    /// The variables that were set.
    pub variables: List<Variable>,
    /// The groups of which a route was taken.
    pub groups: List<Text>,
    /// The fields that the answer is to have.
    pub response: List<Field<'r>>,
    /// Why a handler failed, in error routes alone.
    pub error: Option<Failure>,
}

fn line_of<'r>(alloc: Global, request: &'r Request) -> Result<RequestLine<'r>, NoMemory>
    ensures { IfOk result (λ line. line ≡ line_of request.now) }
{
    let uri = uri_of(alloc, request.target())?;
    Ok(RequestLine {
        method: Lent::shared(request.method()),
        path: Lent::shared(request.path()),
        query: lent_query(request),
        uri,
    })
}

// The field that names this server.
fn server_field<'r>() -> Field<'r>
    ensures { result ≡ server_field }
{
    Field {
        name: Lent::shared(b"server"),
        value: Lent::shared(b"Caddy"),
    }
}

fn first_response<'r>(alloc: Global) -> Result<List<Field<'r>>, NoMemory>
    ensures { IfOk result (λ fields. fields ≡ server_field ∷ []) }
{
    let mut fields = List::new(alloc);
    fields.push(server_field())?;
    Ok(fields)
}

impl<'r> Scene<'r> {
    /// The scene in which a request meets the first route.
    pub fn new(alloc: Global, request: &'r Request) -> Result<Scene<'r>, NoMemory>
        ensures { IfOk result (λ scene. scene ≡ scene_of request.now) }
    {
        let response = first_response(alloc)?;
        let current = line_of(alloc, request)?;
        Ok(Scene {
            current,
            original: None,
            host: Lent::shared(request.host()),
            minor: request.minor(),
            fields: RequestFields::lent(request.fields()),
            body: Lent::shared(request.body()),
            variables: List::new(alloc),
            groups: List::new(alloc),
            response,
            error: None,
        })
    }

    /// What was asked for at first. It takes no memory.
    pub fn original_line(&self) -> &RequestLine<'r>
        ensures { result.now ≡ original_line self.now }
    {
        match &self.original {
            Some(line) => line,
            None => &self.current,
        }
    }
}

// A scene is let go of in these two functions alone. Each place where one is costs the proof seconds, and so does a `?` while
// one is owned.

/// Lets a scene go, where memory is wanting or nothing asks for it any more.
pub fn let_go(scene: Scene<'_>) -> NoMemory {
    let _scene = scene;
    NoMemory
}

/// The fields that the answer is to have, of which alone the scene is still wanted.
pub fn response_of<'r>(scene: Scene<'r>) -> List<Field<'r>>
    ensures { result ≡ scene.entry.response }
{
    scene.response
}
