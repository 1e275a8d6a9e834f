ghost use Rattle.std.specs.Prelude.{◌≡◌, ◌↔◌, Err, IfOk, IsSome};
ghost use Rattle.cd_tree.specs.Reading.{json_reading};
ghost use Rattle.cd_tree.specs.declared.fault.TreeFault.TheVariants.{NotJson};

use cd_text::NoMemory;
use serde_json::{Category, Error, Value};
use std::alloc::Global;

/// A place in a text.
#[derive(Clone, Copy, Debug, PartialEq, Eq)]
pub struct JsonPlace {
    /// The line, counted from 1. A newline ends a line.
    pub line: usize,
    /// The byte in its line, counted from 1. At the end of the text it is the last byte, so 0 where the last line is empty.
    pub column: usize,
}

/// Where a text stops being JSON, as the parser reports it, and `None` where it is JSON. No clause says which place it is.
///
/// It reads the text once more, so it is for a text that `read` refused with `NotJson`.
pub fn place_of_json_fault(alloc: Global, bytes: &[u8]) -> Result<Option<JsonPlace>, NoMemory>
    ensures { IfOk result (λ place. IsSome place ↔ (json_reading bytes.now ≡ Err NotJson)) }
{
    let Err(error) = Value::from_slice(alloc, bytes) else {
        return Ok(None);
    };
    match error.classify() {
        Category::Memory => Err(NoMemory),
        _ => Ok(Some(reported(&error))),
    }
}

fn reported(error: &Error) -> JsonPlace {
    JsonPlace {
        line: error.line(),
        column: error.column(),
    }
}
