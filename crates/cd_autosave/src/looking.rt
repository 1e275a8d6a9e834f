ghost use Rattle.std.specs.Prelude.{◌≡◌, ◌<◌, ◌≤◌, ◌+◌, ◌^◌, List, ℕ, length, IfSome, Some, None};
ghost use Rattle.cd_outside.specs.Counts.{Rises};
ghost use Rattle.cd_autosave.specs.Image.{gate_at};
ghost use Rattle.cd_autosave.specs.Disk.{IsUnchanged, IsDurable};

use crate::{Disk, Gate};
use cd_outside::{Given, Taken};

// Syncs, and looks at a gate. `None` says that a call failed.
pub fn look_at_gate<D: Disk>(disk: &mut D, start: u64) -> Option<Gate>
    requires { start < 2 ^ 32 }
    ensures unchanged { IsUnchanged D.seen D.left_now D.clock D.left_at disk.old disk.new }
    ensures gate { IfSome result (λ gate. (image : List ℕ) → D.seen disk.old ≡ Some image → gate_at image start ≡ gate) }
    ensures durable { IfSome result (λ gate. IsDurable (D.seen disk.new) (D.left_now disk.new)) }
    ensures cause { Rises (D.faults disk.old) (D.faults disk.new) (result ≡ None) }
{
    match disk.sync() {
        Given::Failed => None,
        Given::All => {
            let mut byte: [u8; 1] = [0];
            match disk.read_at(start, &mut byte) {
                Taken::Failed => None,
                Taken::End => Some(Gate::Missing),
                Taken::Bytes(_) => Some(Gate::of_byte(byte[0])),
            }
        }
    }
}
