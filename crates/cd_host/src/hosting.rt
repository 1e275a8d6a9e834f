//! The program serves all its lanes, from its first configuration to its halt.
ghost use Rattle.std.specs.Prelude.{◌≡◌, ◌≤◌, ◌<◌, ◌+◌, ◌++◌, ℕ, [], List, None, Some, true, false, All, length, option_map, vec_len};
ghost use Rattle.std.specs.Vec.{vec_capacity};
ghost use Rattle.cd_outside.specs.declared.key.Key.{Key};
ghost use Rattle.cd_outside.specs.Counts.{Rose};
ghost use Rattle.cd_outside.specs.Given.{IsGivenOf};
ghost use Rattle.cd_legal.specs.declared.limits.TheConstants.{MAX_LANES};
ghost use Rattle.cd_life.specs.Shares.{conf_in};
ghost use Rattle.cd_gate.specs.Ends.{IsRowOf, AreNew};
ghost use Rattle.cd_gate.specs.Passes.{view, opening_of};
ghost use Rattle.cd_hall.specs.Calls.{IsPassOf};
ghost use Rattle.cd_hall.specs.Ends.{ArePassesOf};
ghost use Rattle.cd_host.specs.declared.host_end.HostHow.TheVariants as how;
ghost use Rattle.cd_host.specs.Gone.{MayFollow, AreGone};
ghost use Rattle.cd_host.specs.Hosting.{HasSaid, observed_of, is_served};
ghost use Rattle.cd_host.specs.Runs.{Promises};
ghost use Rattle.cd_host.specs.Seated.{spans};
ghost use Rattle.cd_host.specs.Seats.{AllFrom, AreBack, AreReady, IsUnused};

use crate::closing::end_run;
use crate::counts::Counts;
use crate::host_end::{HostEnd, HostHow};
use crate::serving::serve_all;
use crate::slot::Slot;
use crate::start_how::StartHow;
use crate::starting::start_first;
use cd_admin::{Administered, changes_are_decided};
use cd_gate::Pass;
use cd_hall::{Closed, Hall, NoHall};
use cd_life::Board;
use cd_module_set::{Loaded, ModuleSet};
use cd_outside::{Fixtures, Given, Lane, Sink};
use std::alloc::Global;
use std::sync::Wait;
use std::thread::Threads;

/// Writes a text, which may not be empty.
pub fn say<O: Sink>(out: &mut O, text: &str) -> Given
    requires { 0 < length text.now }
    ensures part { (part : List ℕ) × IsGivenOf result part text.now × (O.holds out.new ≡ option_map (λ held. held ++ part) (O.holds out.old)) }
    ensures later { O.faults out.old ≤ O.faults out.new }
    ensures failed { result ≡ Given.Failed → Rose (O.faults out.old) (O.faults out.new) }
{
    out.write(text.as_bytes())
}

// Says that the program serves, where its first configuration was published, and how the run is to end.
fn announce<O: Sink>(start: StartHow, out: &mut O) -> HostHow
    ensures follows { MayFollow start result }
    ensures said { HasSaid result (O.holds out.old) (O.holds out.new) }
    ensures later { O.faults out.old ≤ O.faults out.new }
    ensures write_fault { result ≡ how.WriteFault → Rose (O.faults out.old) (O.faults out.new) }
{
    match start {
        StartHow::Published => match say(out, "serving initial configuration\n") {
            Given::All => HostHow::Served,
            Given::Failed => HostHow::WriteFault,
        },
        StartHow::FirstRefused(key) => HostHow::FirstRefused(key),
        // The program's pass is the first to make entries, and no count is full so early: there was no memory.
        StartHow::Unpublished => HostHow::NoMemory,
    }
}

// Serves the lanes where the run is to end so, and else leaves them. `slots` has room for them.
fn serve_or_leave<
    R: Threads + Wait + Sync,
    M: Administered + Send + Sync,
    F: Fixtures + Send,
    L: Lane + Send,
>(
    rt: &R,
    alloc: Global,
    how: &HostHow,
    hall: &Hall<M, F>,
    root: &mut Pass<Board<M, F>>,
    passes: &mut Vec<Pass<Board<M, F>>>,
    slots: &mut Vec<Slot<M, F, L>>,
    lanes: &mut Vec<L>,
) -> Counts
where
    M::Compiled: Send + Sync,
    requires ready { AreReady hall.now L.busy root.old passes.old.items lanes.old.items }
    requires some { 1 ≤ length lanes.old.items }
    requires empty { slots.old.items ≡ [] }
    requires room { vec_len lanes.old ≤ vec_capacity slots.old }
    ensures back { AreBack hall.now L.busy root.old root.new passes.old.items passes.new.items lanes.old.items lanes.new.items }
    ensures passes_room { vec_capacity passes.old ≤ vec_capacity passes.new }
    ensures empty { slots.new.items ≡ [] }
    ensures gone { AreGone (record { acts = M.acts; plan = M.plan }) (is_served how.now) (view root.old).seen (view root.new).seen (spans L.faults L.past L.since lanes.old.items lanes.new.items) passes.new.items result.answered result.cut }
    ensures untouched { is_served how.now ≡ false → (lanes.new ≡ lanes.old) × (result.answered ≡ 0) × (result.cut ≡ 0) }
{
    match how {
        HostHow::Served => serve_all(rt, alloc, hall, root, passes, slots, lanes),
        HostHow::FirstRefused(_) | HostHow::WriteFault | HostHow::NoMemory => Counts::new(),
    }
}

// Takes the program's pass, which is the first, out of those of a new hall.
fn take_root<M: ModuleSet, F: Fixtures>(
    hall: &Hall<M, F>,
    passes: &mut Vec<Pass<Board<M, F>>>,
) -> Pass<Board<M, F>>
    requires row { IsRowOf hall.now.gate passes.old.items × AreNew passes.old.items }
    requires passes { ArePassesOf hall.now passes.old.items }
    ensures root { IsUnused hall.now 0 result }
    ensures new { ((view result).seen ≡ []) × ((view result).made ≡ length passes.new.items + 1) × ((view result).joined ≡ []) }
    ensures passes { AllFrom (IsUnused hall.now) 1 passes.new.items }
    ensures count { length passes.old.items ≡ length passes.new.items + 1 }
    ensures room { vec_len passes.new < vec_capacity passes.new }
{
    passes.remove(0)
}

// Starts by the program's pass, which is the first of these, serves the lanes by the others, and ends. `slots` has room for the lanes.
fn run_hall<
    R: Threads + Wait + Sync,
    M: Administered + Send + Sync,
    F: Fixtures + Send,
    L: Lane + Send,
    O: Sink,
>(
    rt: &R,
    alloc: Global,
    hall: Hall<M, F>,
    passes: Vec<Pass<Board<M, F>>>,
    slots: Vec<Slot<M, F, L>>,
    lanes: Vec<L>,
    first: Loaded<M>,
    out: &mut O,
) -> HostEnd<M, F, L>
where
    M::Compiled: Send + Sync,
    requires row { IsRowOf hall.gate passes.items × AreNew passes.items × (length passes.items ≡ length lanes.items + 1) }
    requires passes { ArePassesOf hall passes.items }
    requires some { 1 ≤ length lanes.items }
    requires empty { slots.items ≡ [] }
    requires room { vec_len lanes ≤ vec_capacity slots }
    requires idle { All (λ lane. L.busy lane ≡ false) lanes.items }
    ensures count { length result.lanes.items ≡ length lanes.items }
    ensures idle { All (λ lane. L.busy lane ≡ false) result.lanes.items }
    ensures promises { Promises (record { acts = M.acts; plan = M.plan }) first.tree result.how (observed_of F.calls F.faults L.faults L.past L.since (opening_of hall.gate).desk.fixtures result.fixtures lanes.items result.lanes.items result.answered result.published result.cut (option_map (λ last. conf_in last) result.last)) }
    ensures said { HasSaid result.how (O.holds out.old) (O.holds out.new) }
    ensures write_fault { result.how ≡ how.WriteFault → Rose (O.faults out.old) (O.faults out.new) }
    ensures later { O.faults out.old ≤ O.faults out.new }
    ensures untouched { is_served result.how ≡ false → (result.lanes ≡ lanes) × (result.answered ≡ 0) × (result.cut ≡ 0) }
    ensures last { result.last ≡ None → ⊥ }
{
    changes_are_decided::<M>();
    let mut passes = passes;
    let mut slots = slots;
    let mut lanes = lanes;
    let mut root = take_root(&hall, &mut passes);
    let start = start_first(rt, alloc, &hall, first, &mut root);
    let how = announce(start, out);
    let counts = serve_or_leave(
        rt,
        alloc,
        &how,
        &hall,
        &mut root,
        &mut passes,
        &mut slots,
        &mut lanes,
    );
    slots.destroy_empty();
    let Closed {
        fixtures,
        last,
        published,
    } = end_run(rt, hall, root, passes);
    HostEnd {
        fixtures,
        lanes,
        answered: counts.answered,
        published,
        cut: counts.cut,
        how,
        last: Some(last),
    }
}

// Nothing was done, out of memory.
fn undone<M: Administered, F: Fixtures, L: Lane>(fixtures: F, lanes: Vec<L>) -> HostEnd<M, F, L>
    ensures { result ≡ record { fixtures = fixtures; lanes = lanes; answered = 0; published = 0; cut = 0; how = how.NoMemory; last = None } }
{
    HostEnd {
        fixtures,
        lanes,
        answered: 0,
        published: 0,
        cut: 0,
        how: HostHow::NoMemory,
        last: None,
    }
}

/// Serves all lanes from the first configuration on, and ends what it began.
///
/// The first configuration is published, and the line says so. Then each lane is served to its end, side by side, under the
/// configurations that its requests make; and in the end the program halts, where none of them has, and closes what is open.
///
/// # Errors
///
/// In the `how` of what it gives back: `FirstRefused` where a key of the first configuration could not be opened, only where the
/// faults of the fixtures rose; `WriteFault` where the line could not be written, only where those of `out` did, and then no lane is
/// served; `NoMemory` out of memory.
pub fn run_host<
    R: Threads + Wait + Sync,
    M: Administered + Send + Sync,
    F: Fixtures + Send,
    L: Lane + Send,
    O: Sink,
>(
    rt: &R,
    alloc: Global,
    fixtures: F,
    lanes: Vec<L>,
    first: Loaded<M>,
    out: &mut O,
) -> HostEnd<M, F, L>
where
    M::Compiled: Send + Sync,
    requires some { 1 ≤ length lanes.items }
    requires few { length lanes.items ≤ MAX_LANES }
    requires idle { All (λ lane. L.busy lane ≡ false) lanes.items }
    ensures count { length result.lanes.items ≡ length lanes.items }
    ensures idle { All (λ lane. L.busy lane ≡ false) result.lanes.items }
    ensures promises { Promises (record { acts = M.acts; plan = M.plan }) first.tree result.how (observed_of F.calls F.faults L.faults L.past L.since fixtures result.fixtures lanes.items result.lanes.items result.answered result.published result.cut (option_map (λ last. conf_in last) result.last)) }
    ensures said { HasSaid result.how (O.holds out.old) (O.holds out.new) }
    ensures refused { (key : Key) → result.how ≡ how.FirstRefused key → Rose (F.faults fixtures) (F.faults result.fixtures) }
    ensures write_fault { result.how ≡ how.WriteFault → Rose (O.faults out.old) (O.faults out.new) }
    ensures later { O.faults out.old ≤ O.faults out.new }
    ensures untouched { is_served result.how ≡ false → (result.lanes ≡ lanes) × (result.answered ≡ 0) × (result.cut ≡ 0) }
    ensures nothing { result.last ≡ None → (result.how ≡ how.NoMemory) × (result.fixtures ≡ fixtures) }
{
    let Ok(slots) = Vec::with_capacity(alloc, lanes.len()) else {
        return undone(fixtures, lanes);
    };
    match Hall::new(alloc, fixtures, lanes.len() as u32 + 1) {
        Ok((hall, passes)) => run_hall(rt, alloc, hall, passes, slots, lanes, first, out),
        Err(NoHall { fixtures }) => {
            slots.destroy_empty();
            undone(fixtures, lanes)
        }
    }
}
