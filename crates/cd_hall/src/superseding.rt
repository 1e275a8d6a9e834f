// A serial was superseded in a turn, or retired: what is left of its configuration is ended.
ghost use Rattle.std.specs.Prelude.{◌≡◌, ◌<◌};
ghost use Rattle.cd_legal.specs.Laws.{core_at};
ghost use Rattle.cd_legal.specs.Legal.{state_at};
ghost use Rattle.cd_legal.specs.Runs.{stopped_all, cleaned_all};
ghost use Rattle.cd_gate.specs.Passes.{view};
ghost use Rattle.cd_desk.specs.declared.closing.Closing.{Closing};
ghost use Rattle.cd_desk.specs.Closings.{Leaves};
ghost use Rattle.cd_life.specs.Standing.{Stood};
ghost use Rattle.cd_hall.specs.GoesOn.{GoesOn};
ghost use Rattle.cd_hall.specs.Retired.{IsRetired};
ghost use Rattle.cd_hall.specs.Turns.{InTurn};

use crate::stopping::{clean_all, stop_all};
use cd_gate::{Gate, Pass, Turn};
use cd_life::Board;
use cd_module_set::ModuleSet;
use cd_outside::Fixtures;

// Stops the apps of the configuration with a superseded serial.
pub(crate) fn stop_superseded<M: ModuleSet, F: Fixtures>(
    gate: &Gate<Board<M, F>>,
    turn: &mut Turn<Board<M, F>>,
    pass: &mut Pass<Board<M, F>>,
    serial: u32,
)
    requires turn { InTurn (Stood F.calls F.faults M.plan M.change) gate.now turn.old pass.old }
    requires superseded { serial < (state_at (view pass.old).seen).serial }
    ensures turn { InTurn (Stood F.calls F.faults M.plan M.change) gate.now turn.new pass.new }
    ensures stops { (left : Closing) × Leaves (state_at (core_at (view pass.old).seen)) serial left × GoesOn (view pass.old) (view pass.new) (stopped_all left.number left.apps) }
    ensures unsettled { (view pass.new).unsettled ≡ (view pass.old).unsettled }
{
    let mut closing = turn.value.superseded(serial);
    stop_all(gate, turn, pass, &mut closing);
    turn.value.put_back(serial, closing);
}

// Cleans the instances of the configuration with a retired serial.
pub(crate) fn clean_retired<M: ModuleSet, F: Fixtures>(
    gate: &Gate<Board<M, F>>,
    turn: &mut Turn<Board<M, F>>,
    pass: &mut Pass<Board<M, F>>,
    serial: u32,
)
    requires turn { InTurn (Stood F.calls F.faults M.plan M.change) gate.now turn.old pass.old }
    requires retired { IsRetired (state_at (view pass.old).seen) serial }
    ensures turn { InTurn (Stood F.calls F.faults M.plan M.change) gate.now turn.new pass.new }
    ensures cleans { (left : Closing) × Leaves (state_at (core_at (view pass.old).seen)) serial left × GoesOn (view pass.old) (view pass.new) (cleaned_all left.number left.instances) }
    ensures unsettled { (view pass.new).unsettled ≡ (view pass.old).unsettled }
{
    let mut closing = turn.value.superseded(serial);
    clean_all(gate, turn, pass, &mut closing);
    turn.value.closed(closing);
}
