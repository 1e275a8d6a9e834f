ghost use Rattle.std.specs.Prelude.{◌≡◌, ◌<◌, ◌+◌, ◌-◌, ◌^◌, ◌==◌, ◌&&◌, ℕ, List, Some, None, true, false};
ghost use Rattle.std.specs.Arc.{arc_value};
ghost use Rattle.cd_legal.specs.declared.entry.Entry.TheVariants as entry;
ghost use Rattle.cd_legal.specs.declared.entry.Signed.{Signed};
ghost use Rattle.cd_legal.specs.Legal.{state_at};
ghost use Rattle.cd_legal.specs.State.{has_number};
ghost use Rattle.cd_tree.specs.declared.tree.Tree.{Tree};
ghost use Rattle.cd_desk.specs.declared.closing.Closing.{Closing};
ghost use Rattle.cd_desk.specs.declared.left.Left.{Left};
ghost use Rattle.cd_desk.specs.Drafting.{drafts_in};
ghost use Rattle.cd_desk.specs.Lefts.{IsLeft, step_at};
ghost use Rattle.cd_desk.specs.Closings.{IsClosing, MayClean, CanRetire, Leaves};
ghost use Rattle.cd_desk.specs.Trimming.{IsCleared, IsTrimmed};
ghost use Rattle.cd_life.specs.Removals.{HandsBack};
ghost use Rattle.cd_life.specs.Rooms.{KeepsRoom};
ghost use Rattle.cd_life.specs.Standing.{Stood, Adds, Keeps};

use crate::board::{Board, Draft};
use crate::kept::take_out;
use crate::removed::{Abandoned, Removed};
use cd_desk::{Closing, Step};
use cd_module_set::ModuleSet;
use cd_outside::Fixtures;

// Whether the serial is the last one that was published, which a halt has superseded.
fn is_last_published(halted: bool, current: u32, serial: u32) -> bool
    ensures { result ≡ (halted && (serial + 1 == current)) }
{
    match serial.checked_add(1) {
        Some(next) => halted && next == current,
        None => false,
    }
}

impl<M: ModuleSet, F: Fixtures> Board<M, F> {
    /// Gives a draft up. What it has made and started is left to be ended, and its configuration is handed back.
    pub fn abandon(&mut self, draft: Draft<M>) -> Abandoned<M>
        requires { IsLeft self.old.desk.books (arc_value draft.loaded).tree draft.left }
        ensures entry { Adds F.calls F.faults M.plan M.change self.old self.new (entry.Abandon draft.left.number) }
        ensures closing { result.closing ≡ record { number = draft.left.number; serial = None; apps = draft.left.started; instances = draft.left.made } }
        ensures removed { result.removed.loaded ≡ draft.loaded }
        ensures at { IsClosing self.new.desk result.closing }
        ensures clean { MayClean self.new.desk.books draft.left.number }
        ensures room { KeepsRoom self.old self.new }
    {
        let Draft { left, loaded } = draft;
        self.live = self.live.saturating_sub(1);
        let closing = self.desk.abandon(left);
        Abandoned {
            closing,
            removed: Removed { loaded },
        }
    }

    /// Stops the last app of a closing that is left. Where it was the last one of a halted host, the fixtures are shut.
    pub fn stop(&mut self, closing: &mut Closing) -> Step
        requires at { IsClosing self.old.desk closing.old }
        requires more { 0 < closing.old.apps }
        ensures entry { Adds F.calls F.faults M.plan M.change self.old self.new (entry.Stopped closing.old.number (closing.old.apps - 1)) }
        ensures closing { closing.new ≡ record closing.old { apps = closing.old.apps - 1 } }
        ensures at { IsClosing self.new.desk closing.new }
        ensures clean { MayClean self.old.desk.books closing.old.number → MayClean self.new.desk.books closing.old.number }
        ensures step { result ≡ step_at closing.new.apps 0 }
        ensures room { KeepsRoom self.old self.new }
    {
        self.desk.stop(closing)
    }

    /// Cleans the last instance of a closing that is left, once all its apps are stopped.
    pub fn clean(&mut self, closing: &mut Closing) -> Step
        requires at { IsClosing self.old.desk closing.old }
        requires stopped { closing.old.apps ≡ 0 }
        requires more { 0 < closing.old.instances }
        requires may { MayClean self.old.desk.books closing.old.number }
        ensures entry { Adds F.calls F.faults M.plan M.change self.old self.new (entry.Cleaned closing.old.number (closing.old.instances - 1)) }
        ensures closing { closing.new ≡ record closing.old { instances = closing.old.instances - 1 } }
        ensures at { IsClosing self.new.desk closing.new }
        ensures clean { MayClean self.new.desk.books closing.old.number }
        ensures step { result ≡ step_at closing.new.instances 0 }
        ensures room { KeepsRoom self.old self.new }
    {
        self.desk.clean(closing)
    }

    /// Spends a closing of which nothing is left, and lets go of what is kept of its draft. The rows of closed drafts go too, up to
    /// the first draft that is not closed. It adds no entry, and takes no memory.
    pub fn closed(&mut self, closing: Closing)
        requires apps { closing.apps ≡ 0 }
        requires instances { closing.instances ≡ 0 }
        ensures keeps { Keeps F.calls F.faults M.plan M.change self.old self.new }
        ensures same { self.new ≡ record self.old { desk = record self.old.desk { books = self.new.desk.books } } }
        ensures drafts { drafts_in self.new.desk.books ≡ drafts_in self.old.desk.books }
        ensures lefts { (t : Tree) (left : Left) → IsLeft self.old.desk.books t left → IsLeft self.new.desk.books t left }
        ensures closings { (other : Closing) → IsClosing self.old.desk other → IsClosing self.new.desk other }
        ensures clean { (draft : ℕ) → MayClean self.old.desk.books draft → MayClean self.new.desk.books draft }
        ensures retire { (serial : ℕ) → CanRetire self.old.desk serial → CanRetire self.new.desk serial }
        ensures trimmed { IsTrimmed self.new.desk.books }
        ensures cleared { IsCleared self.new.desk.books closing.number }
        ensures room { KeepsRoom self.old self.new }
    {
        self.desk.closed(closing);
    }

    /// What is left to be ended of the configuration with a superseded serial; nothing of the opening one.
    pub fn superseded(&mut self, serial: u32) -> Closing
        requires { serial < self.old.desk.serial }
        ensures same { self.new ≡ self.old }
        ensures at { IsClosing self.new.desk result }
        ensures serial { result.serial ≡ Some serial }
        ensures left { (opening : _) (log : List Signed) → Stood F.calls F.faults M.plan M.change opening self.new log → Leaves (state_at log) serial result }
        ensures clean { (opening : _) (log : List Signed) → Stood F.calls F.faults M.plan M.change opening self.new log → has_number serial (state_at log).retired ≡ true → 0 < result.instances → MayClean self.new.desk.books result.number }
    {
        self.desk.superseded(serial)
    }

    /// Takes back the closing of a superseded serial, until it is asked for again.
    pub fn put_back(&mut self, serial: u32, closing: Closing)
        requires { closing.serial ≡ Some serial }
        ensures { self.new ≡ self.old }
    {
        closing.put_back(serial);
    }

    /// Retires a superseded serial, under which no request runs any more and whose apps are stopped. Its configuration is handed
    /// back, but the one that was published last is kept to the end.
    pub fn retire(&mut self, serial: u32) -> Option<Removed<M>>
        requires { CanRetire self.old.desk serial }
        ensures entry { Adds F.calls F.faults M.plan M.change self.old self.new (entry.Retire serial) }
        ensures removed { HandsBack serial self.old.kept.items self.new.kept.items result }
        ensures room { KeepsRoom self.old self.new }
    {
        let last = is_last_published(self.desk.halted, self.desk.serial, serial);
        self.desk.retire(serial);
        if last {
            return None;
        }
        take_out(&mut self.kept, serial)
    }

    /// Halts the host: nothing runs under the next serial, and no configuration follows. Where no app is left to be stopped, the
    /// fixtures are shut.
    pub fn halt(&mut self)
        requires running { self.old.desk.halted ≡ false }
        requires bound { self.old.desk.serial + 1 < 2 ^ 32 }
        ensures entry { Adds F.calls F.faults M.plan M.change self.old self.new (entry.Halt (self.old.desk.serial + 1)) }
        ensures halted { self.new.desk.halted ≡ true }
        ensures room { KeepsRoom self.old self.new }
    {
        self.desk.halt();
    }
}
