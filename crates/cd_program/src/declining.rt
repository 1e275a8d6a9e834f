ghost use Rattle.cd_program.specs.Endings.{IsDeclined};
ghost use Rattle.cd_outside.specs.Devices.{device};

use crate::config::Unloaded;
use crate::output::{refused_line, say_line};
use crate::status::Status;
use cd_outside::Sink;
use cd_text::NoMemory;
use std::alloc::Global;

/// Says why there is no configuration.
pub fn decline<O: Sink>(alloc: Global, why: Unloaded, out: &mut O) -> Status
    ensures { IsDeclined why (device O.holds O.faults out.old out.new) result }
{
    match why {
        Unloaded::Failed => {
            let _ = say_line(out, "read fault\n");
            Status::ReadFault
        }
        Unloaded::Refused(refusal) => match refused_line(alloc, &refusal) {
            Ok(line) => {
                let _ = say_line(out, line.as_str());
                Status::Refused
            }
            Err(NoMemory) => Status::NoMemory,
        },
        Unloaded::NoMemory => Status::NoMemory,
    }
}
