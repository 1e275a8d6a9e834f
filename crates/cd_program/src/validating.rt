ghost use Rattle.cd_outside.specs.Devices.{device};
ghost use Rattle.cd_program.specs.Top.{Validates};

use crate::config::load;
use crate::declining::decline;
use crate::output::say_line;
use crate::status::Status;
use cd_module_set::ModuleSet;
use cd_outside::{Given, Sink, Source};
use std::alloc::Global;

/// Loads the configuration, and says whether it may run.
pub fn validate<M: ModuleSet, S: Source, O: Sink>(
    alloc: Global,
    config: &mut S,
    out: &mut O,
) -> Status
    ensures { Validates M.plan (device S.left S.faults config.old config.new) (device O.holds O.faults out.old out.new) result }
{
    match load::<M, S>(alloc, config) {
        Ok(_) => match say_line(out, "valid configuration\n") {
            Given::All => Status::Done,
            Given::Failed => Status::WriteFault,
        },
        Err(why) => decline(alloc, why, out),
    }
}
