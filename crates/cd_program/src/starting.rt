ghost use Rattle.std.specs.Prelude.{◌≡◌, ◌≤◌, false, All, length};
ghost use Rattle.cd_legal.specs.declared.limits.TheConstants.{MAX_LANES};
ghost use Rattle.cd_host.specs.Hosting.{serving_line};
ghost use Rattle.cd_program.specs.Output.{FellShort};
ghost use Rattle.cd_program.specs.Seen.{IsUnserved, seen};
ghost use Rattle.cd_program.specs.Top.{ExitsWith, NullMayRun, Serves};
ghost use Rattle.cd_program.specs.Words.{IsSoundStart, is_of_file};

use crate::concluding::conclude;
use crate::config::load_initial;
use crate::declining::decline;
use crate::ended::{Ended, unbegun};
use crate::initial::Initial;
use cd_admin::Administered;
use cd_host::run_host;
use cd_outside::{Fixtures, Lane, Sink, Source};
use cd_text::List;
use std::alloc::Global;
use std::sync::Wait;
use std::thread::Threads;

/// Loads the configuration that the run begins with, runs it over all lanes, and says how that went.
pub fn run_all<
    M: Administered + Send + Sync,
    R: Threads + Wait + Sync,
    S: Source,
    O: Sink,
    F: Fixtures + Send,
    L: Lane + Send,
>(
    rt: &R,
    alloc: Global,
    initial: Initial,
    config: &mut S,
    out: &mut O,
    fixtures: F,
    lanes: List<L>,
) -> Ended<F, L>
where
    M::Compiled: Send + Sync,
    requires some { 1 ≤ length lanes }
    requires few { length lanes ≤ MAX_LANES }
    requires idle { All (λ lane. L.busy lane ≡ false) lanes }
    requires sound { IsSoundStart initial }
    ensures idle { All (λ lane. L.busy lane ≡ false) result.lanes }
    ensures count { length result.lanes ≡ length lanes }
    ensures ends { NullMayRun M.plan → ExitsWith result.status (Serves (record { acts = M.acts; plan = M.plan }) initial
        (seen S.left S.faults O.holds O.faults F.calls F.faults L.past L.since L.faults config.old config.new out.old out.new fixtures lanes result)) }
    ensures unread { is_of_file initial ≡ false → config.new ≡ config.old }
    ensures unbegun { FellShort serving_line (O.holds out.old) (O.holds out.new)
        → IsUnserved (seen S.left S.faults O.holds O.faults F.calls F.faults L.past L.since L.faults config.old config.new out.old out.new fixtures lanes result) }
{
    match load_initial::<M, S>(alloc, initial, config) {
        Ok(loaded) => {
            let end = run_host(rt, alloc, fixtures, lanes.into_vec(), loaded, out);
            conclude(alloc, end, out)
        }
        Err(why) => unbegun(decline(alloc, why, out), fixtures, lanes),
    }
}
