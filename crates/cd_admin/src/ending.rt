use crate::denial::Denial;
use cd_text::{NoMemory, Text};

/// How a request ends before it changes anything.
#[derive(Debug, Drop)]
pub enum Ending {
    /// It is refused.
    Denied(Denial),
    /// It is shown a value: the tag of the value, and its compact text.
    Shown(Text, Text),
    /// The tree that it asks for is there already.
    Unchanged,
    /// It asks for the halt.
    Halt,
    /// Memory ran out.
    NoMemory,
}

impl From<NoMemory> for Ending {
    ghost use Rattle.std.specs.Prelude.{◌≡◌};
    ghost use Rattle.cd_admin.specs.declared.ending.Ending.TheVariants.{NoMemory as out_of_memory};

    ghost from_gives = { λ _ ending. ending ≡ out_of_memory };

    fn from(_: NoMemory) -> Ending {
        Ending::NoMemory
    }
}
