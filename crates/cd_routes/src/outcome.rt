ghost use Rattle.std.specs.Prelude.{◌≡◌, [], false};

use cd_fill::Scene;
use cd_text::{List, Octets};
use cd_wire::{Answer, Field, Lent};

/// What becomes of a request.
#[derive(Debug, Drop)]
pub enum Outcome<'r> {
    Answered(Answer<'r>),
    /// A handler failed in this scene, with this status and this message.
    Failed(Scene<'r>, u16, Octets),
}

/// An answer without a body.
pub(crate) fn bare_answer<'r>(status: u16, fields: List<Field<'r>>) -> Answer<'r>
    ensures { result ≡ record { status = status; fields = fields.entry; body = []; close = false } }
{
    Answer {
        status,
        fields,
        body: Lent::shared(b""),
        close: false,
    }
}
