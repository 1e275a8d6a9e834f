ghost use Rattle.std.specs.Prelude.{◌≡◌, List, ℕ, Option, IfSome};
ghost use Rattle.cd_outside.specs.Counts.{Rose};
ghost use Rattle.cd_autosave.specs.declared.save_fault.SaveFault.TheVariants as fault;
ghost use Rattle.cd_autosave.specs.Opening.{IsDamaged};
ghost use Rattle.cd_outside.specs.Devices.{device};
ghost use Rattle.cd_saved.specs.Top.{DiskSeen, IsRefused};

use cd_autosave::SaveFault;
use cd_outside::Sink;
use cd_program::{Status, say_line};

/// Says why the disk could not be opened.
pub fn decline<O: Sink>(why: SaveFault, out: &mut O) -> Status
    ensures { (disk : DiskSeen) → (why ≡ fault.Damaged → IfSome disk.told_before IsDamaged) → (why ≡ fault.DiskFault → Rose disk.failed_before disk.failed_now)
        → IsRefused disk (device O.holds O.faults out.old out.new) why result }
{
    match why {
        SaveFault::Damaged => {
            let _ = say_line(out, "refused: saved configuration is damaged\n");
            Status::Refused
        }
        SaveFault::DiskFault => {
            let _ = say_line(out, "read fault\n");
            Status::ReadFault
        }
        SaveFault::NoMemory => Status::NoMemory,
    }
}
