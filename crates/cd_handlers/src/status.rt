ghost use Rattle.std.specs.Prelude.{◌≡◌};
ghost use Rattle.cd_text.specs.Gives.{Gives};
ghost use Rattle.cd_handlers.specs.declared.fault.HandlerFault.{HandlerFault};
ghost use Rattle.cd_handlers.specs.Status.{status, code_of, code_written, known, text_status, status_said, status_given, usual_status};

use crate::fault::HandlerFault;
use crate::filling::text_filled;
use crate::texts::has_brace;
use cd_fill::{Failure, Scene};
use cd_module::{LoadFault, LoadKind, Settings};
use cd_text::Text;
use cd_tree::{Num, Place, SharedText, Tree};
use std::alloc::Global;

/// The status that a handler gives, from 200 to 999 (RFC 9110, section 15).
#[derive(Debug, Drop)]
pub enum Status {
    /// It is the same for each request.
    Code(u16),
    /// It is what this text says when it is filled.
    Template(Text),
}

fn code_of(number: &Num) -> Option<u16>
    ensures { result ≡ code_of number.now }
{
    if number.negative || number.size < 200 || number.size > 999 {
        return None;
    }
    Some(number.size as u16)
}

fn code_written(text: &[u8]) -> Option<u16>
    ensures { result ≡ code_written text.now }
{
    match text {
        [
            hundreds @ b'2'..=b'9',
            tens @ b'0'..=b'9',
            ones @ b'0'..=b'9',
        ] => {
            let hundreds = u16::from(*hundreds - b'0');
            let tens = u16::from(*tens - b'0');
            let ones = u16::from(*ones - b'0');
            Some(100 * hundreds + 10 * tens + ones)
        }
        _ => None,
    }
}

fn known(alloc: Global, code: Option<u16>, at: &Place<'_>) -> Result<Status, LoadFault>
    ensures { Gives LoadFault.NoMemory result (known code at.now) }
{
    match code {
        Some(code) => Ok(Status::Code(code)),
        None => Err(LoadFault::at(alloc, LoadKind::BadValue, at)),
    }
}

fn text_status(alloc: Global, text: &SharedText, at: &Place<'_>) -> Result<Status, LoadFault>
    ensures { Gives LoadFault.NoMemory result (text_status text.now at.now) }
{
    let bytes = text.as_str().as_bytes();
    if has_brace(bytes) {
        return Ok(Status::Template(text.copy(alloc)?));
    }
    known(alloc, code_written(bytes), at)
}

impl Settings for Status {
    ghost reader = { status };

    #[tactic(auto, unfolding(crate::specs::Status::status))]
    fn read(alloc: Global, tree: &Tree, at: &Place<'_>) -> Result<Status, LoadFault> {
        match tree {
            Tree::Num(number) => known(alloc, code_of(number), at),
            Tree::Text(text) => text_status(alloc, text, at),
            _ => Err(LoadFault::at(alloc, LoadKind::WrongKind, at)),
        }
    }
}

// The status that a filled text says.
fn status_said(text: &[u8]) -> Result<u16, HandlerFault>
    ensures { result ≡ status_said text.now }
{
    match code_written(text) {
        Some(code) => Ok(code),
        None => Err(HandlerFault::Unable),
    }
}

/// The status that is given, or else the usual one.
#[tactic(auto, unfolding(crate::specs::Status::status_given))]
pub(crate) fn status_given(
    alloc: Global,
    status: &Option<Status>,
    usual: u16,
    scene: &Scene<'_>,
) -> Result<u16, HandlerFault>
    ensures { Gives HandlerFault.NoMemory result (status_given status.now usual scene.now) }
{
    match status {
        None => Ok(usual),
        Some(Status::Code(code)) => Ok(*code),
        Some(Status::Template(text)) => {
            let filled = text_filled(alloc, text, scene)?;
            status_said(filled.as_slice())
        }
    }
}

/// The status of an answer to which no handler gives one: that of the error in error routes, else 200.
pub fn usual_status(error: &Option<Failure>) -> u16
    ensures { result ≡ usual_status error.now }
{
    match error {
        None => 200,
        Some(error) => error.status,
    }
}
