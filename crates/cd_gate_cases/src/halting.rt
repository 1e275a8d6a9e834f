// The host is halted.
ghost use Rattle.std.specs.Prelude.{◌≡◌, ◌+◌, [], None};
ghost use Rattle.cd_gate.specs.Duties.{more_due};
ghost use Rattle.cd_gate_cases.specs.Passes.{Has, HasSeenHalt, begun};

use crate::board::Board;
use crate::requests::{Caller, retire};
use cd_gate::Pass;
use std::sync::Wait;

// Halts the host in one turn, unless it was halted: the serial is superseded, and then settled. It says whether that is then due.
fn halt_once<R: Wait>(caller: &Caller<'_, R>, pass: &mut Pass<Board>) -> bool
    requires { Has caller.now.gate.now pass.old caller.now.number None [] }
    ensures has { Has caller.now.gate.now pass.new caller.now.number None (more_due result 0 []) }
    ensures begun { begun pass.new ≡ begun pass.old }
    ensures halted { HasSeenHalt pass.new }
{
    let mut turn = caller.gate.enter(caller.rt, pass);
    if turn.value.is_halted() {
        caller.gate.leave(turn, pass);
        return false;
    }
    let begins = caller.gate.halt_step(&mut turn, pass, 0);
    turn.value = Board::Halted;
    let due = caller.gate.settle_step(&mut turn, pass, 0, begins);
    caller.gate.leave(turn, pass);
    due
}

/// The host is halted, unless it was, and the opening configuration is retired where it is due then. It says how many duties the pass had.
pub fn halt<R: Wait>(caller: &Caller<'_, R>, pass: &mut Pass<Board>) -> u32
    requires { Has caller.now.gate.now pass.old caller.now.number None [] }
    ensures has { Has caller.now.gate.now pass.new caller.now.number None [] }
    ensures begun { begun pass.new ≡ begun pass.old }
    ensures halted { HasSeenHalt pass.new }
{
    if halt_once(caller, pass) {
        retire(caller, pass, 0);
        return 1;
    }
    0
}
