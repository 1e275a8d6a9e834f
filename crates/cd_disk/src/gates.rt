//! Whether a file is one of saved configurations.
ghost use Rattle.std.specs.Prelude.{◌≡◌};
ghost use Rattle.cd_disk.specs.declared.gates.TheConstants.{MAX_FILE_BYTES};
ghost use Rattle.cd_disk.specs.Gates.{fits_gates};

use cd_autosave::{HEAD_BYTES, SECOND_START};
use cd_outside::MAX_KEPT_BYTES;

/// How many bytes the file has at most: those up to the second slot, and a slot whose text is as long as it may be.
pub const MAX_FILE_BYTES: u64 = SECOND_START + HEAD_BYTES as u64 + MAX_KEPT_BYTES as u64;

/// The number, which the code cites by name.
pub fn limits_are()
    ensures { MAX_FILE_BYTES ≡ 25165837 }
{}

/// Whether a file of this length, with these bytes at its gates, is taken for one of saved configurations. A crash may leave any byte
/// at a gate that was being written. So a first byte that is neither 0 nor 1 says that another program made the file only where the
/// second slot is closed, and where more than the gate is there.
pub fn may_be_saved(size: u64, first: u8, second: u8) -> bool
    ensures { result ≡ fits_gates size first second }
{
    if size > MAX_FILE_BYTES {
        false
    } else if first < 2 || size < 2 {
        true
    } else {
        second == 1 && size > SECOND_START + 1
    }
}
