ghost use Rattle.std.specs.Prelude.{◌≡◌, ◌<◌, ◌≤◌, ◌+◌, ◌^◌, ℕ, Err, Some, None, IfOk, IfErr, OnErr, is_err, false, slice_get, length};
ghost use Rattle.std.specs.Arc.{arc_value};
ghost use Rattle.cd_outside.specs.Counts.{Rose};
ghost use Rattle.cd_legal.specs.declared.limits.TheConstants.{MAX_DRAFTS, MAX_MODULES};
ghost use Rattle.cd_legal.specs.declared.entry.Entry.TheVariants as entry;
ghost use Rattle.cd_desk.specs.declared.drafts.DraftFault.TheVariants as fault;
ghost use Rattle.cd_desk.specs.Instances.{failed_in};
ghost use Rattle.cd_desk.specs.Desks.{HasTicket};
ghost use Rattle.cd_desk.specs.Drafting.{drafts_in};
ghost use Rattle.cd_desk.specs.Lefts.{IsLeft, one_made, one_started, step_at};
ghost use Rattle.cd_life.specs.Changes.{conf_here};
ghost use Rattle.cd_life.specs.Fits.{Suits};
ghost use Rattle.cd_life.specs.Origins.{change_of};
ghost use Rattle.cd_life.specs.Rooms.{KeepsRoom};
ghost use Rattle.cd_life.specs.Standing.{Adds, Keeps};

use crate::board::{Board, Draft};
use crate::kept::keep;
use crate::origin::Origin;
use cd_desk::{DraftFault, Left, Step};
use cd_legal::Plan;
use cd_module_set::{Loaded, ModuleSet};
use cd_outside::{Fixtures, Key};
use std::alloc::Global;
use std::sync::Arc;

// What is left of a new draft.
fn new_left(number: u64, plan: &Plan) -> Left
    requires modules { length plan.now.modules ≤ MAX_MODULES }
    requires apps { length plan.now.apps ≤ MAX_MODULES + 1 }
    ensures { result ≡ record { number = number; made = 0; modules = length plan.now.modules; started = 0; apps = length plan.now.apps; failed = false } }
{
    Left {
        number,
        made: 0,
        modules: plan.modules.len() as u32,
        started: 0,
        apps: plan.apps.len() as u32,
        failed: false,
    }
}

impl<M: ModuleSet, F: Fixtures> Board<M, F> {
    /// Makes a draft of a configuration, with all memory that its later life needs.
    ///
    /// # Errors
    ///
    /// `Spent` where as many drafts were made as a history may have, and `NoMemory`. The history is as it was after both.
    pub fn draft(&mut self, alloc: Global, loaded: Loaded<M>) -> Result<Draft<M>, DraftFault>
        ensures entry { IfOk result (λ draft. Adds F.calls F.faults M.plan M.change self.old self.new (entry.Draft draft.left.number loaded.tree loaded.plan)) }
        ensures draft { IfOk result (λ draft. IsLeft self.new.desk.books loaded.tree draft.left) }
        ensures left { IfOk result (λ draft. draft.left ≡ record { number = draft.left.number; made = 0; modules = length loaded.plan.modules; started = 0; apps = length loaded.plan.apps; failed = false }) }
        ensures loaded { IfOk result (λ draft. arc_value draft.loaded ≡ loaded) }
        ensures err { OnErr result (Keeps F.calls F.faults M.plan M.change self.old self.new) }
        ensures spent { result ≡ Err fault.Spent → drafts_in self.old.desk.books ≡ MAX_DRAFTS }
        ensures unspent { IfOk result (λ _. drafts_in self.old.desk.books < MAX_DRAFTS) }
    {
        let Ok(loaded) = Arc::new(alloc, loaded) else {
            return Err(DraftFault::NoMemory);
        };
        let Some(live) = self.live.checked_add(1) else {
            return Err(DraftFault::NoMemory);
        };
        if self.kept.reserve(live as usize).is_err() {
            return Err(DraftFault::NoMemory);
        }
        let number = self.desk.draft(alloc, &loaded.tree, &loaded.plan)?;
        self.live = live;
        let left = new_left(number, &loaded.plan);
        Ok(Draft { left, loaded })
    }

    /// Makes the next instance of a draft. It takes the keys of its module in order, and opens each that nobody had. The key in
    /// `Err` is the one that could not be opened in this call: those before it are held until the draft is cleaned.
    pub fn make(&mut self, draft: &mut Draft<M>) -> Result<Step, Key>
        requires draft { IsLeft self.old.desk.books (arc_value draft.old.loaded).tree draft.old.left }
        requires more { draft.old.left.made < draft.old.left.modules }
        requires unfailed { draft.old.left.failed ≡ false }
        ensures entry { (taken : ℕ) × Adds F.calls F.faults M.plan M.change self.old self.new (entry.Made draft.old.left.number draft.old.left.made taken (failed_in result)) }
        ensures left { draft.new.left ≡ one_made draft.old.left (is_err result) }
        ensures draft { IsLeft self.new.desk.books (arc_value draft.new.loaded).tree draft.new.left }
        ensures loaded { draft.new.loaded ≡ draft.old.loaded }
        ensures step { IfOk result (λ step. step ≡ step_at draft.new.left.made draft.new.left.modules) }
        ensures room { KeepsRoom self.old self.new }
        ensures cause { IfErr result (λ _. Rose (F.faults self.old.desk.fixtures) (F.faults self.new.desk.fixtures)) }
    {
        self.desk.make_next(&mut draft.left)
    }

    /// Starts the next app of a draft, in the same way.
    pub fn start(&mut self, draft: &mut Draft<M>) -> Result<Step, Key>
        requires draft { IsLeft self.old.desk.books (arc_value draft.old.loaded).tree draft.old.left }
        requires ready { draft.old.left.made ≡ draft.old.left.modules }
        requires more { draft.old.left.started < draft.old.left.apps }
        requires unfailed { draft.old.left.failed ≡ false }
        ensures entry { (taken : ℕ) × Adds F.calls F.faults M.plan M.change self.old self.new (entry.Started draft.old.left.number draft.old.left.started taken (failed_in result)) }
        ensures left { draft.new.left ≡ one_started draft.old.left (is_err result) }
        ensures draft { IsLeft self.new.desk.books (arc_value draft.new.loaded).tree draft.new.left }
        ensures loaded { draft.new.loaded ≡ draft.old.loaded }
        ensures step { IfOk result (λ step. step ≡ step_at draft.new.left.started draft.new.left.apps) }
        ensures room { KeepsRoom self.old self.new }
        ensures cause { IfErr result (λ _. Rose (F.faults self.old.desk.fixtures) (F.faults self.new.desk.fixtures)) }
    {
        self.desk.start_next(&mut draft.left)
    }

    /// Makes a complete draft the configuration with the next serial. It takes no memory.
    ///
    /// The first one comes by no request. Each other one has the tree that its request makes of the tree of the serial before.
    pub fn publish(&mut self, draft: Draft<M>, from: u32, origin: Origin)
        requires draft { IsLeft self.old.desk.books (arc_value draft.loaded).tree draft.left }
        requires made { draft.left.made ≡ draft.left.modules }
        requires started { draft.left.started ≡ draft.left.apps }
        requires unfailed { draft.left.failed ≡ false }
        requires running { self.old.desk.halted ≡ false }
        requires current { from ≡ self.old.desk.serial }
        requires bound { from + 1 < 2 ^ 32 }
        requires change { Suits M.change (conf_here self.old from) (change_of origin) (arc_value draft.loaded).tree }
        ensures entry { Adds F.calls F.faults M.plan M.change self.old self.new (entry.Publish draft.left.number (from + 1) from (change_of origin)) }
        ensures serial { self.new.desk.serial ≡ from + 1 }
        ensures room { KeepsRoom self.old self.new }
    {
        let Draft { left, loaded } = draft;
        drop(origin);
        self.desk.publish(left.number);
        let serial = self.desk.serial;
        self.live = self.live.saturating_sub(1);
        keep(&mut self.kept, serial, loaded);
    }

    /// Begins a request of a caller, which has none, under the current serial.
    pub fn begin(&mut self, caller: u32) -> u32
        requires { slice_get self.old.desk.tickets.by_caller.items caller ≡ Some None }
        ensures entry { Adds F.calls F.faults M.plan M.change self.old self.new (entry.Begin caller result) }
        ensures serial { result ≡ self.old.desk.serial }
        ensures room { KeepsRoom self.old self.new }
    {
        self.desk.begin(caller)
    }

    /// Ends the request of a caller.
    pub fn finish(&mut self, caller: u32)
        requires { HasTicket self.old.desk.tickets.by_caller.items caller }
        ensures entry { Adds F.calls F.faults M.plan M.change self.old self.new (entry.Finish caller) }
        ensures room { KeepsRoom self.old self.new }
    {
        self.desk.finish(caller);
    }
}
