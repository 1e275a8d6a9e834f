// What was taken out of the board is freed out of a turn, so that nobody waits for it.
ghost use Rattle.cd_gate.specs.Passes.{IsIdleOf};

use cd_gate::{Gate, Pass};
use cd_life::{Board, Removed};
use cd_module_set::ModuleSet;
use cd_outside::Fixtures;

// Frees a configuration, if there is one. The pass has no turn.
pub(crate) fn free_out_of_turn<M: ModuleSet, F: Fixtures>(
    gate: &Gate<Board<M, F>>,
    pass: &Pass<Board<M, F>>,
    removed: Option<Removed<M>>,
)
    requires idle { IsIdleOf gate.now pass.now }
{
    let _ = gate;
    let _ = pass;
    match removed {
        Some(removed) => removed.free(),
        None => {}
    }
}
