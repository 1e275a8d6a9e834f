ghost use Rattle.std.specs.Prelude.{◌≡◌, [], IfOk};

use crate::shared::Shared;
use crate::shared_text::SharedText;
use cd_text::{List, NoMemory};
use std::alloc::Global;

/// A part of a spot: a name, or the place of an element.
#[derive(Drop)]
pub(crate) enum SpotPart {
    Name(SharedText),
    Element(usize),
}

/// The parts of a spot: those of a base, if it has one, and the parts after these.
#[derive(Drop)]
pub(crate) struct SpotParts {
    pub(crate) base: Option<Shared<SpotPart>>,
    pub(crate) rest: List<SpotPart>,
}

/// No parts yet, with room for so many.
pub(crate) fn no_parts(alloc: Global, room: usize) -> Result<List<SpotPart>, NoMemory>
    ensures { IfOk result (λ parts. parts ≡ []) }
{
    let mut parts = Vec::new(alloc);
    parts.reserve(room)?;
    Ok(List::from_vec(parts))
}
