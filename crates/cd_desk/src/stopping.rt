ghost use Rattle.std.specs.Prelude.{◌≡◌, ◌<◌, ◌-◌, ◌==◌, ◌&&◌, cond, [], ◌∷◌};
ghost use Rattle.cd_outside.specs.declared.fixtures.FixtureCall.TheVariants as call;
ghost use Rattle.cd_outside.specs.FixtureCall.{CallsGrow};
ghost use Rattle.cd_legal.specs.Serials.{has_serial};
ghost use Rattle.cd_legal.specs.declared.entry.Entry.TheVariants as entry;
ghost use Rattle.cd_desk.specs.Desks.{AddsTo};
ghost use Rattle.cd_desk.specs.Lefts.{step_at};
ghost use Rattle.cd_desk.specs.Closings.{IsClosing, MayClean};
ghost use Rattle.cd_desk.specs.Rooms.{KeepsRoom};

use crate::closing::Closing;
use crate::desk::Desk;
use crate::left::Step;
use crate::row::Row;
use crate::rows::{clean_in, place_of, stop_in};
use crate::serials::has_serial;
use cd_outside::Fixtures;

// Whether something is left.
fn step_to(left: u32) -> Step
    ensures { result ≡ step_at left 0 }
{
    if left == 0 { Step::Done } else { Step::More }
}

// Whether the host is halted, it was published with the serial before this one, and all its apps are stopped.
fn is_last(halted: bool, row: &Row, serial: u32) -> bool
    ensures { result ≡ (halted && (has_serial (serial - 1) row.now.life && (row.now.apps.ended == row.now.apps.opened))) }
{
    halted && (has_serial(row.life, serial.saturating_sub(1)) && row.apps.ended == row.apps.opened)
}

// Shuts the fixtures where nothing is left to be stopped.
pub(crate) fn shut_where<F: Fixtures>(fixtures: &mut F, last: bool)
    ensures calls { CallsGrow (F.calls fixtures.old) (cond last (call.Shut ∷ []) []) (F.calls fixtures.new) }
    ensures faults { F.faults fixtures.new ≡ F.faults fixtures.old }
{
    if last {
        fixtures.shut();
    }
}

impl<F: Fixtures> Desk<F> {
    /// The last app that is left is stopped. Where it was the last one of a halted host, the fixtures are shut.
    pub fn stop(&mut self, closing: &mut Closing) -> Step
        requires at { IsClosing self.old closing.old }
        requires more { 0 < closing.old.apps }
        ensures entry { AddsTo F.calls self.old self.new (entry.Stopped closing.old.number (closing.old.apps - 1)) }
        ensures closing { closing.new ≡ record closing.old { apps = closing.old.apps - 1 } }
        ensures at { IsClosing self.new closing.new }
        ensures clean { MayClean self.old.books closing.old.number → MayClean self.new.books closing.old.number }
        ensures step { result ≡ step_at closing.new.apps 0 }
        ensures faults { F.faults self.new.fixtures ≡ F.faults self.old.fixtures }
        ensures room { KeepsRoom self.old self.new }
    {
        let place = place_of(&self.books, closing.number);
        stop_in(&mut self.books, &mut self.fixtures, place);
        let last = is_last(self.halted, &self.books.rows[place], self.serial);
        shut_where(&mut self.fixtures, last);
        closing.apps -= 1;
        step_to(closing.apps)
    }

    /// The last instance that is left is cleaned.
    pub fn clean(&mut self, closing: &mut Closing) -> Step
        requires at { IsClosing self.old closing.old }
        requires stopped { closing.old.apps ≡ 0 }
        requires more { 0 < closing.old.instances }
        requires may { MayClean self.old.books closing.old.number }
        ensures entry { AddsTo F.calls self.old self.new (entry.Cleaned closing.old.number (closing.old.instances - 1)) }
        ensures closing { closing.new ≡ record closing.old { instances = closing.old.instances - 1 } }
        ensures at { IsClosing self.new closing.new }
        ensures clean { MayClean self.new.books closing.old.number }
        ensures step { result ≡ step_at closing.new.instances 0 }
        ensures faults { F.faults self.new.fixtures ≡ F.faults self.old.fixtures }
        ensures room { KeepsRoom self.old self.new }
    {
        let place = place_of(&self.books, closing.number);
        clean_in(&mut self.books, &mut self.fixtures, place);
        closing.instances -= 1;
        step_to(closing.instances)
    }
}
