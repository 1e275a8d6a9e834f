//! The response that the bytes of an upstream are.
ghost use Rattle.std.specs.Prelude.{◌≡◌, IfOk};
ghost use Rattle.cd_proxy.specs.Responses.{IsReading};

use crate::intake::ResponseIntake;
use crate::passed_response::PassedResponse;
use cd_text::NoMemory;
use std::alloc::Global;

/// What the bytes of an upstream begin with.
#[derive(Debug, Drop)]
pub enum Reading {
    /// A whole response, of which this is passed on.
    Whole(PassedResponse),
    /// No whole response yet. It comes only where the bytes have not ended.
    More,
    /// No response.
    Bad,
}

// An intake of these bytes.
fn intake_of(alloc: Global, bytes: &[u8], head: bool) -> Result<ResponseIntake, NoMemory>
    ensures { IfOk result (λ intake. intake ≡ record { to_head = head; bytes = bytes.now }) }
{
    let mut intake = ResponseIntake::new(alloc, head);
    intake.push(bytes)?;
    Ok(intake)
}

/// The response that the bytes of an upstream begin with (RFC 9112, sections 2 to 7). `ended` says that no more bytes come, and
/// `head` that the request was HEAD. What comes after the response is left alone. Bytes that come in pieces are read by
/// `ResponseIntake`, which does not read them again and again.
///
/// Up to `MAX_INFORMATIONAL` informational responses before it are passed over. It is `Bad` only where the bytes have ended, or
/// where no bytes can follow that make them begin with a response.
pub fn response(alloc: Global, bytes: &[u8], ended: bool, head: bool) -> Result<Reading, NoMemory>
    ensures { IfOk result (IsReading bytes.now ended head) }
{
    let mut intake = intake_of(alloc, bytes, head)?;
    intake.next(ended)
}
