//! A run whose lanes save what they keep on one disk.
ghost use Rattle.std.specs.Prelude.{◌≡◌, ◌≤◌, false, [], All, length, vec_len};
ghost use Rattle.std.specs.Vec.{vec_capacity};
ghost use Rattle.cd_legal.specs.declared.limits.TheConstants.{MAX_LANES};
ghost use Rattle.cd_program.specs.Seen.{seen};
ghost use Rattle.cd_outside.specs.Devices.{device};
ghost use Rattle.cd_program.specs.Words.{IsSoundStart, is_of_file};
ghost use Rattle.cd_saved.specs.Running.{RanShared};
ghost use Rattle.cd_saved.specs.Top.{HasRunOver};

use cd_autosave::{Disk, Saver, SavingLane, SavingRun, SharedSaver, unwrap_lanes, wrap_lanes};
use cd_outside::{Fixtures, Lane, Sink, Source};
use cd_program::{Ended, Initial, Status, run_all, unbegun};
use cd_standard::Standard;
use cd_text::List;
use std::alloc::Global;
use std::sync::ledger::{Blank, Share};
use std::sync::{Mutex, Wait};
use std::thread::Threads;

// Runs over the lanes, each as one that saves. `wrapped` has room for them.
fn run_wrapped<
    'a,
    R: Threads + Wait + Sync,
    S: Source,
    O: Sink,
    F: Fixtures + Send,
    L: Lane + Send,
    D: Disk + Send,
    K: SavingRun + Send + Sync,
>(
    rt: &R,
    alloc: Global,
    initial: Initial,
    config: &mut S,
    out: &mut O,
    fixtures: F,
    saver: &'a Mutex<SharedSaver<D, K>>,
    all: &mut Share<K>,
    lanes: Vec<L>,
    wrapped: Vec<SavingLane<'a, L, D, K>>,
) -> Ended<F, L>
    requires some { 1 ≤ length lanes.items }
    requires few { length lanes.items ≤ MAX_LANES }
    requires idle { All (λ lane. L.busy lane ≡ false) lanes.items }
    requires sound { IsSoundStart initial }
    requires parts { all.old.parts ≡ length lanes.items }
    requires amount { all.old.amount ≡ 0 }
    requires empty { wrapped.items ≡ [] }
    requires room { vec_len lanes ≤ vec_capacity wrapped }
    ensures count { length result.lanes ≡ length lanes.items }
    ensures idle { All (λ lane. L.busy lane ≡ false) result.lanes }
    ensures parts { all.new.parts ≡ length lanes.items }
    ensures unread { is_of_file initial ≡ false → config.new ≡ config.old }
    ensures ran { RanShared initial (seen S.left S.faults O.holds O.faults F.calls F.faults L.past L.since L.faults config.old config.new out.old out.new fixtures lanes.items result) result.status all.new.amount }
{
    let mut lanes = lanes;
    let mut wrapped = wrapped;
    wrap_lanes(saver, all, &mut lanes, &mut wrapped);
    let Ended {
        status,
        fixtures,
        lanes: served,
        answered,
        published,
        cut,
    } = run_all::<Standard, R, S, O, F, SavingLane<'a, L, D, K>>(
        rt,
        alloc,
        initial,
        config,
        out,
        fixtures,
        List::from_vec(wrapped),
    );
    let mut served = served.into_vec();
    unwrap_lanes(all, &mut lanes, &mut served);
    served.destroy_empty();
    Ended {
        status,
        fixtures,
        lanes: List::from_vec(lanes),
        answered,
        published,
        cut,
    }
}

/// What a run over a disk ended with, and its saver.
pub struct EndedOver<F, L, D: Disk> {
    pub ended: Ended<F, L>,
    pub saver: Saver<D>,
}

/// Runs over the lanes, each of which saves what it keeps by one saver, by the ledger of the run.
pub fn run_over<
    R: Threads + Wait + Sync,
    S: Source,
    O: Sink,
    F: Fixtures + Send,
    L: Lane + Send,
    D: Disk + Send,
    K: SavingRun + Send + Sync,
>(
    rt: &R,
    alloc: Global,
    initial: Initial,
    config: &mut S,
    out: &mut O,
    fixtures: F,
    lanes: List<L>,
    saver: Saver<D>,
    blank: Blank,
) -> EndedOver<F, L, D>
    requires some { 1 ≤ length lanes }
    requires few { length lanes ≤ MAX_LANES }
    requires idle { All (λ lane. L.busy lane ≡ false) lanes }
    requires sound { IsSoundStart initial }
    requires name { blank.name ≡ K.name }
    requires parts { blank.parts ≡ K.parts }
    requires start { D.faults saver.slots.disk ≡ K.start }
    requires each { blank.parts ≡ length lanes }
    ensures count { length result.ended.lanes ≡ length lanes }
    ensures idle { All (λ lane. L.busy lane ≡ false) result.ended.lanes }
    ensures unread { is_of_file initial ≡ false → config.new ≡ config.old }
    ensures ran { HasRunOver initial (device D.seen D.faults saver.slots.disk result.saver.slots.disk)
        (seen S.left S.faults O.holds O.faults F.calls F.faults L.past L.since L.faults config.old config.new out.old out.new fixtures lanes result.ended) result.ended.status }
{
    match Vec::with_capacity(alloc, lanes.len()) {
        Err(_) => EndedOver {
            ended: unbegun(Status::NoMemory, fixtures, lanes),
            saver,
        },
        Ok(wrapped) => {
            let (met, mut all) = blank.open::<K>();
            let shared = Mutex::new(SharedSaver::new(saver, met));
            let ended = run_wrapped(
                rt,
                alloc,
                initial,
                config,
                out,
                fixtures,
                &shared,
                &mut all,
                lanes.into_vec(),
                wrapped,
            );
            EndedOver {
                ended,
                saver: shared.into_inner().close(all),
            }
        }
    }
}
