ghost use Rattle.std.specs.Prelude.{◌≡◌};
ghost use Rattle.cd_echo.specs.Echo.{echo_answer};

use cd_text::List;
use cd_wire::{Answer, Lent, Request};
use std::alloc::Global;

/// What the app answers to a request: status 200, no fields, and the body of the request, which the request lends. It takes no
/// memory.
pub fn echo_answer<'a>(alloc: Global, request: &'a Request) -> Answer<'a>
    ensures { result ≡ echo_answer request.now }
{
    Answer {
        status: 200,
        fields: List::new(alloc),
        body: Lent::shared(request.body()),
        close: false,
    }
}
