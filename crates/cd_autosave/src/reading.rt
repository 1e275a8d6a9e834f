ghost use Rattle.std.specs.Prelude.{◌≡◌, ◌<◌, ◌≤◌, ◌+◌, ◌^◌, List, ℕ, length, IfSome, None};
ghost use Rattle.cd_outside.specs.Counts.{Rises};
ghost use Rattle.cd_autosave.specs.Disk.{IsRead, IsUnchanged};

use crate::Disk;
use cd_outside::Taken;

// Fills the room with the bytes from a place on, and with zeros past the end of the file. Says how many bytes the file had, or
// `None` where a call failed.
pub fn read_whole<D: Disk>(disk: &mut D, at: u64, into: &mut [u8]) -> Option<usize>
    requires { at + length into.old < 2 ^ 63 }
    ensures unchanged { IsUnchanged D.seen D.left_now D.clock D.left_at disk.old disk.new }
    ensures long { length into.new ≡ length into.old }
    ensures bytes { IfSome result (λ count. IfSome (D.seen disk.old) (λ image. IsRead at into.new count image)) }
    ensures cause { Rises (D.faults disk.old) (D.faults disk.new) (result ≡ None) }
{
    let mut done: usize = 0;
    while done < into.len() {
        match disk.read_at(at + done as u64, &mut into[done..]) {
            Taken::Failed => return None,
            Taken::End => {
                into[done..].fill(0);
                return Some(done);
            }
            Taken::Bytes(count) => done += count,
        }
    }
    Some(done)
}
