ghost use Rattle.std.specs.Prelude.{◌≤◌, ◌<◌, length};
ghost use Rattle.cd_outside.specs.Devices.{device};
ghost use Rattle.cd_outside.specs.Lines.{IsSaid, Says, usage_line};

use crate::{Given, Sink};

/// Writes a line, which may not be empty.
pub fn say<O: Sink>(out: &mut O, line: &str) -> Given
    requires { 0 < length line.now }
    ensures said { IsSaid result line.now (device O.holds O.faults out.old out.new) }
    ensures says { Says line.now (device O.holds O.faults out.old out.new) }
    ensures later { O.faults out.old ≤ O.faults out.new }
{
    out.write(line.as_bytes())
}

/// The line that says which words the program knows.
pub const USAGE: &str =
    "usage: caddy_run run [--config FILE] | stdio --config FILE | validate --config FILE | storm N | reverse-proxy --from A --policy P --to U ... | adapt --config FILE | run --resume\n";

/// Says which words the program knows.
pub fn say_usage<O: Sink>(out: &mut O) -> Given
    ensures says { Says usage_line (device O.holds O.faults out.old out.new) }
{
    say(out, USAGE)
}
