ghost use Rattle.std.specs.Prelude.{◌≡◌, ◌≤◌, ◌<◌, ◌^◌, List, ℕ, length, IfSome, None, if◌then◌else◌, ◌==◌};
ghost use Rattle.cd_autosave.specs.declared.slot.Gate.TheVariants.{Missing, One, Other};
ghost use Rattle.cd_outside.specs.Counts.{Rises};
ghost use Rattle.cd_autosave.specs.Disk.{IsRead, IsUnchanged};
ghost use Rattle.cd_autosave.specs.Heads.{IsHead};

use crate::reading::read_whole;
use crate::{Disk, Gate};

/// What is before the text of a slot.
#[derive(Drop)]
pub struct Head {
    pub gate: Gate,
    /// Whether the slot is open.
    pub open_slot: bool,
    pub number: u64,
    /// The length of its text, in bytes.
    pub size: u32,
}

// Reads the head of the slot that begins there. `None` says that a call failed.
pub fn read_head<D: Disk>(disk: &mut D, start: u64) -> Option<Head>
    requires { start < 2 ^ 32 }
    ensures unchanged { IsUnchanged D.seen D.left_now D.clock D.left_at disk.old disk.new }
    ensures head { IfSome result (λ head. IfSome (D.seen disk.old) (λ image. IsHead start image head)) }
    ensures cause { Rises (D.faults disk.old) (D.faults disk.new) (result ≡ None) }
{
    let mut bytes: [u8; 13] = [0; 13];
    match read_whole(disk, start, &mut bytes) {
        None => None,
        Some(count) => Some(head_of(&bytes, count)),
    }
}

// The head in these bytes, of which the file had so many.
fn head_of(bytes: &[u8], count: usize) -> Head
    requires { length bytes.now ≡ 13 }
    ensures { (start : ℕ) (image : List ℕ) → IsRead start bytes.now count image → IsHead start image result }
{
    Head {
        gate: gate_read(count, bytes[0]),
        open_slot: count >= 2 && bytes[0] == 1,
        number: u64::from_be_bytes([
            bytes[1], bytes[2], bytes[3], bytes[4], bytes[5], bytes[6], bytes[7], bytes[8],
        ]),
        size: u32::from_be_bytes([bytes[9], bytes[10], bytes[11], bytes[12]]),
    }
}

// What the gate says, where the file had so many bytes from it on.
fn gate_read(count: usize, byte: u8) -> Gate
    ensures { result ≡ (if count == 0 then Missing else if byte == 1 then One else Other) }
{
    if count == 0 {
        Gate::Missing
    } else {
        Gate::of_byte(byte)
    }
}
