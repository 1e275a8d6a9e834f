// What is left of a draft is ended in a turn, the last one first: its apps are stopped, and its instances are cleaned.
ghost use Rattle.std.specs.Prelude.{◌≡◌, ◌<◌, ◌-◌, ◌∷◌, []};
ghost use Rattle.cd_legal.specs.declared.entry.Entry.TheVariants.{Stopped, Cleaned};
ghost use Rattle.cd_legal.specs.Runs.{stopped_all, cleaned_all};
ghost use Rattle.cd_gate.specs.Passes.{view};
ghost use Rattle.cd_desk.specs.Closings.{IsClosing, MayClean};
ghost use Rattle.cd_life.specs.Standing.{Stood};
ghost use Rattle.cd_hall.specs.AtHand.{HasClosingInTurn};
ghost use Rattle.cd_hall.specs.GoesOn.{GoesOn};
ghost use Rattle.cd_hall.specs.Turns.{InTurn};

use crate::names::{NamesCleaned, NamesStopped};
use crate::turns::add;
use cd_gate::{Gate, Pass, Turn};
use cd_life::{Board, Closing};
use cd_module_set::ModuleSet;
use cd_outside::Fixtures;

// Stops the last app that is left.
fn stop_next<M: ModuleSet, F: Fixtures>(
    gate: &Gate<Board<M, F>>,
    turn: &mut Turn<Board<M, F>>,
    pass: &mut Pass<Board<M, F>>,
    closing: &mut Closing,
)
    requires closing { HasClosingInTurn (Stood F.calls F.faults M.plan M.change) gate.now turn.old pass.old closing.old }
    requires more { 0 < closing.old.apps }
    ensures turn { InTurn (Stood F.calls F.faults M.plan M.change) gate.now turn.new pass.new }
    ensures goes { GoesOn (view pass.old) (view pass.new) (Stopped closing.old.number (closing.old.apps - 1) ∷ []) }
    ensures unsettled { (view pass.new).unsettled ≡ (view pass.old).unsettled }
    ensures closing { closing.new ≡ record closing.old { apps = closing.old.apps - 1 } }
    ensures at { IsClosing turn.new.value.desk closing.new }
    ensures clean { MayClean turn.old.value.desk.books closing.old.number → MayClean turn.new.value.desk.books closing.old.number }
{
    turn.value.stop(closing);
    add::<Board<M, F>, Closing, NamesStopped>(gate, turn, pass, &*closing);
}

// Stops all apps that are left.
pub(crate) fn stop_all<M: ModuleSet, F: Fixtures>(
    gate: &Gate<Board<M, F>>,
    turn: &mut Turn<Board<M, F>>,
    pass: &mut Pass<Board<M, F>>,
    closing: &mut Closing,
)
    requires closing { HasClosingInTurn (Stood F.calls F.faults M.plan M.change) gate.now turn.old pass.old closing.old }
    ensures turn { InTurn (Stood F.calls F.faults M.plan M.change) gate.now turn.new pass.new }
    ensures goes { GoesOn (view pass.old) (view pass.new) (stopped_all closing.old.number closing.old.apps) }
    ensures unsettled { (view pass.new).unsettled ≡ (view pass.old).unsettled }
    ensures closing { closing.new ≡ record closing.old { apps = 0 } }
    ensures at { IsClosing turn.new.value.desk closing.new }
    ensures clean { MayClean turn.old.value.desk.books closing.old.number → MayClean turn.new.value.desk.books closing.old.number }
{
    let mut left = closing.apps_left();
    while left > 0 {
        stop_next(gate, turn, pass, closing);
        left -= 1;
    }
}

// Cleans the last instance that is left.
fn clean_next<M: ModuleSet, F: Fixtures>(
    gate: &Gate<Board<M, F>>,
    turn: &mut Turn<Board<M, F>>,
    pass: &mut Pass<Board<M, F>>,
    closing: &mut Closing,
)
    requires closing { HasClosingInTurn (Stood F.calls F.faults M.plan M.change) gate.now turn.old pass.old closing.old }
    requires more { 0 < closing.old.instances }
    requires stopped { closing.old.apps ≡ 0 }
    requires may { MayClean turn.old.value.desk.books closing.old.number }
    ensures turn { InTurn (Stood F.calls F.faults M.plan M.change) gate.now turn.new pass.new }
    ensures goes { GoesOn (view pass.old) (view pass.new) (Cleaned closing.old.number (closing.old.instances - 1) ∷ []) }
    ensures unsettled { (view pass.new).unsettled ≡ (view pass.old).unsettled }
    ensures closing { closing.new ≡ record closing.old { instances = closing.old.instances - 1 } }
    ensures at { IsClosing turn.new.value.desk closing.new }
    ensures clean { MayClean turn.new.value.desk.books closing.old.number }
{
    turn.value.clean(closing);
    add::<Board<M, F>, Closing, NamesCleaned>(gate, turn, pass, &*closing);
}

// Cleans all instances that are left, once all apps are stopped.
pub(crate) fn clean_all<M: ModuleSet, F: Fixtures>(
    gate: &Gate<Board<M, F>>,
    turn: &mut Turn<Board<M, F>>,
    pass: &mut Pass<Board<M, F>>,
    closing: &mut Closing,
)
    requires closing { HasClosingInTurn (Stood F.calls F.faults M.plan M.change) gate.now turn.old pass.old closing.old }
    requires stopped { closing.old.apps ≡ 0 }
    requires may { 0 < closing.old.instances → MayClean turn.old.value.desk.books closing.old.number }
    ensures turn { InTurn (Stood F.calls F.faults M.plan M.change) gate.now turn.new pass.new }
    ensures goes { GoesOn (view pass.old) (view pass.new) (cleaned_all closing.old.number closing.old.instances) }
    ensures unsettled { (view pass.new).unsettled ≡ (view pass.old).unsettled }
    ensures closing { closing.new ≡ record closing.old { instances = 0 } }
{
    let mut left = closing.instances_left();
    while left > 0 {
        clean_next(gate, turn, pass, closing);
        left -= 1;
    }
}
