ghost use Rattle.std.specs.Prelude.{◌≡◌, ◌≤◌, ◌↔◌, false, length, All};
ghost use Rattle.cd_legal.specs.declared.limits.TheConstants.{MAX_LANES};
ghost use Rattle.cd_program.specs.Complete.{CompletesAs};
ghost use Rattle.cd_program.specs.Seen.{seen};
ghost use Rattle.cd_program.specs.Top.{EndsAs};
ghost use Rattle.cd_program.specs.Words.{command, has_file};

use crate::adapting::adapt_file;
use crate::command::Command;
use crate::ended::{Ended, after_storm, unbegun};
use crate::output::say_line;
use crate::starting::run_all;
use crate::status::Status;
use crate::storm::run_storm;
use crate::validating::validate;
use cd_outside::{Fixtures, Lane, Sink, Source, USAGE};
use cd_standard::Standard;
use cd_text::{List, Text};
use std::alloc::Global;
use std::sync::Wait;
use std::thread::Threads;

/// The program, over all that it is handed: its words, the source of its configuration, its output, its fixtures and its lanes.
///
/// `stdio --config FILE` and `run --config FILE` begin with the configuration that `config` gives, and `run` begins with the
/// configuration null. They serve all lanes, each request by the configuration that is current when it begins: by its apps, or,
/// at the address of the admin API, by that, which may publish another configuration or halt the host. It returns once no lane
/// gives a further connection, or after a halt. `validate --config FILE` loads the configuration, says whether it may run, and
/// starts nothing. `adapt --config FILE` reads a Caddyfile, and writes the configuration that it means. `storm N` serves the
/// workload of a number over forms in memory, and says in one line what it came to.
///
/// | status | when |
/// |---|---|
/// | 0 | the run or the storm has ended, the configuration may run, or that of a Caddyfile was written |
/// | 1 | the configuration is refused, a key of it could not be opened, or the Caddyfile has a fault |
/// | 2 | the words are unknown |
/// | 3 | the configuration could not be read |
/// | 4 | a line of a run or of a storm, that the configuration may run, or that of a Caddyfile, could not be written |
/// | 5 | out of memory |
pub fn caddy_main<R: Threads + Wait + Sync, S: Source, O: Sink, F: Fixtures + Send, L: Lane + Send>(
    rt: &R,
    alloc: Global,
    words: &[Text],
    config: &mut S,
    out: &mut O,
    fixtures: F,
    lanes: List<L>,
) -> Ended<F, L>
    requires some { 1 ≤ length lanes }
    requires few { length lanes ≤ MAX_LANES }
    requires idle { All (λ lane. L.busy lane ≡ false) lanes }

    // Each lane comes back, and none has an open connection.
    ensures count { length result.lanes ≡ length lanes }
    ensures idle { All (λ lane. L.busy lane ≡ false) result.lanes }

    // Status 2 comes exactly where the words ask for nothing that is known. Without a file nothing is read.
    ensures known { result.status ≤ 5 }
    ensures usage { (result.status ≡ 2) ↔ (command words.now ≡ Command.Unknown) }
    ensures unread { has_file (command words.now) ≡ false → config.new ≡ config.old }

    // How each command ends, by status.
    ensures ends { EndsAs (seen S.left S.faults O.holds O.faults F.calls F.faults L.past L.since L.faults config.old config.new out.old out.new fixtures lanes result)
        result.status (command words.now) }

    // Completeness: where no call on a part of the outside has failed, and what is read may run, the status is 0 or 5; that of `adapt`
    // is 5, or 0 or 1 by its bytes. A run that ended with status 0, and lacked memory for no connection, has given each of them all
    // its answers, up to its own end.
    ensures completes { CompletesAs (seen S.left S.faults O.holds O.faults F.calls F.faults L.past L.since L.faults config.old config.new out.old out.new fixtures lanes result)
        result.status (command words.now) }
{
    match Command::of(words) {
        Command::Serve(initial) => run_all::<Standard, R, S, O, F, L>(
            rt, alloc, initial, config, out, fixtures, lanes,
        ),
        Command::Validate => unbegun(
            validate::<Standard, S, O>(alloc, config, out),
            fixtures,
            lanes,
        ),
        Command::Adapt => unbegun(adapt_file(alloc, config, out), fixtures, lanes),
        Command::Storm(number) => after_storm(
            run_storm::<R, Standard, O>(rt, alloc, number, out),
            fixtures,
            lanes,
        ),
        Command::Unknown => {
            let _ = say_line(out, USAGE);
            unbegun(Status::Usage, fixtures, lanes)
        }
    }
}
