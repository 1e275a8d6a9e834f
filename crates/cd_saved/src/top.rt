ghost use Rattle.std.specs.Prelude.{◌≡◌, ◌≤◌, ◌↔◌, false, None, length, All, MatchOption};
ghost use Rattle.cd_legal.specs.declared.limits.TheConstants.{MAX_LANES};
ghost use Rattle.cd_program.specs.declared.command.Command as commands;
ghost use Rattle.cd_program.specs.declared.command.Command.TheVariants as Command;
ghost use Rattle.cd_program.specs.Complete.{CompletesAs};
ghost use Rattle.cd_program.specs.Seen.{seen};
ghost use Rattle.cd_outside.specs.Devices.{device};
ghost use Rattle.cd_program.specs.Top.{EndsAs};
ghost use Rattle.cd_program.specs.Words.{command, has_file};
ghost use Rattle.cd_saved.specs.Top.{EndsOver, AsWithout};
ghost use Rattle.cd_saved.specs.Words.{saved_run};

use crate::declining::decline;
use crate::running::{EndedOver, run_over};
use crate::saved_run::SavedRun;
use cd_autosave::{Disk, Saver};
use cd_outside::{Fixtures, Lane, Sink, Source};
use cd_program::{Ended, caddy_main, unbegun};
use cd_text::{List, Text};
use std::alloc::Global;
use std::marker::Brand;
use std::sync::Wait;
use std::sync::ledger::Blank;
use std::thread::Threads;

// Opens the disk, and runs.
fn run_saved<
    R: Threads + Wait + Sync,
    S: Source,
    O: Sink,
    F: Fixtures + Send,
    L: Lane + Send,
    D: Disk + Send,
>(
    rt: &R,
    alloc: Global,
    which: SavedRun,
    config: &mut S,
    out: &mut O,
    fixtures: F,
    lanes: List<L>,
    disk: D,
) -> (Ended<F, L>, D)
    requires some { 1 ≤ length lanes }
    requires few { length lanes ≤ MAX_LANES }
    requires idle { All (λ lane. L.busy lane ≡ false) lanes }
    ensures count { length result.0.lanes ≡ length lanes }
    ensures idle { All (λ lane. L.busy lane ≡ false) result.0.lanes }
    ensures unread { (which ≡ SavedRun.OfFile → ⊥) → config.new ≡ config.old }
    ensures ends { EndsOver which (device D.seen D.faults disk result.1)
        (seen S.left S.faults O.holds O.faults F.calls F.faults L.past L.since L.faults config.old config.new out.old out.new fixtures lanes result.0) result.0.status }
{
    match Saver::open(alloc, disk) {
        Err((disk, why)) => (unbegun(decline(why, out), fixtures, lanes), disk),
        Ok((saver, saved)) => {
            let initial = which.initial(saved);
            let blank = Blank::new(lanes.len() as u64);
            let EndedOver { ended, saver } = run_over::<R, S, O, F, L, D, Brand>(
                rt, alloc, initial, config, out, fixtures, lanes, saver, blank,
            );
            (ended, saver.close())
        }
    }
}

/// The program, over all that it is handed, of which the disk is a part.
///
/// `run`, `run --config FILE` and `run --resume` open the disk, and serve as `caddy_main` does. Before they acknowledge a change they
/// save its configuration, unless its setting `admin.config.persist` is false. `run --resume` begins with the configuration that was
/// saved last, or with null where none was. The first configuration of a run is not saved. All other words are those of `caddy_main`,
/// and the disk stays as it is.
///
/// | status | when, beside those of `caddy_main` |
/// |---|---|
/// | 1 | what is saved is damaged, or the configuration that was saved is refused |
/// | 3 | the disk failed as it was opened |
///
/// Where the disk can't be opened the words' file is not read, and no run is begun.
pub fn caddy_saved<
    R: Threads + Wait + Sync,
    S: Source,
    O: Sink,
    F: Fixtures + Send,
    L: Lane + Send,
    D: Disk + Send,
>(
    rt: &R,
    alloc: Global,
    words: &[Text],
    config: &mut S,
    out: &mut O,
    fixtures: F,
    lanes: List<L>,
    disk: D,
) -> (Ended<F, L>, D)
    requires some { 1 ≤ length lanes }
    requires few { length lanes ≤ MAX_LANES }
    requires idle { All (λ lane. L.busy lane ≡ false) lanes }

    // Each lane comes back, and none has an open connection.
    ensures count { length result.0.lanes ≡ length lanes }
    ensures idle { All (λ lane. L.busy lane ≡ false) result.0.lanes }

    // Status 2 comes exactly where the words ask for nothing that is known. Without a file nothing is read.
    ensures known { result.0.status ≤ 5 }
    ensures usage { (result.0.status ≡ 2) ↔ ((saved_run words.now ≡ None) × (command words.now ≡ Command.Unknown)) }
    ensures unread { has_file (command words.now) ≡ false → config.new ≡ config.old }

    // How it ends: words that ask for no run that saves as `caddy_main` does, with the disk as it was; and a run that saves by its table.
    ensures ends { MatchOption (saved_run words.now)
        ((result.1 ≡ disk) × AsWithout (seen S.left S.faults O.holds O.faults F.calls F.faults L.past L.since L.faults config.old config.new out.old out.new fixtures lanes result.0) result.0.status (command words.now))
        (λ which. EndsOver which (device D.seen D.faults disk result.1)
        (seen S.left S.faults O.holds O.faults F.calls F.faults L.past L.since L.faults config.old config.new out.old out.new fixtures lanes result.0) result.0.status) }
{
    match SavedRun::of(words) {
        None => (
            caddy_main(rt, alloc, words, config, out, fixtures, lanes),
            disk,
        ),
        Some(which) => run_saved(rt, alloc, which, config, out, fixtures, lanes, disk),
    }
}
