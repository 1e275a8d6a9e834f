//! The host is halted by a pass.
ghost use Rattle.std.specs.Prelude.{◌≡◌, [], List, true, false};
ghost use Rattle.cd_legal.specs.Legal.{state_at};
ghost use Rattle.cd_legal.specs.Placed.{Placed};
ghost use Rattle.cd_gate.specs.Passes.{view};
ghost use Rattle.cd_hall.specs.Calls.{IsPassOf};
ghost use Rattle.cd_serve.specs.Attempts.{Works};
ghost use Rattle.cd_serve.specs.Changes.{IsHalting};

use cd_gate::Pass;
use cd_hall::Hall;
use cd_life::Board;
use cd_module_set::ModuleSet;
use cd_outside::Fixtures;
use std::sync::Wait;

/// Halts the host where nobody has, and retires what was current where no request runs under it. Says whether this call has halted.
pub fn halt_host<R: Wait, M: ModuleSet, F: Fixtures>(
    rt: &R,
    hall: &Hall<M, F>,
    pass: &mut Pass<Board<M, F>>,
) -> bool
    requires pass { IsPassOf hall.now pass.old }
    requires duties { (view pass.old).duties ≡ [] }
    ensures pass { IsPassOf hall.now pass.new }
    ensures halts { result ≡ true → (work : List Placed) × Works (view pass.old) (view pass.new) work × IsHalting work }
    ensures halted { result ≡ false → Works (view pass.old) (view pass.new) [] × ((state_at (view pass.new).seen).halted ≡ true) }
    ensures draft { (view pass.new).draft ≡ (view pass.old).draft }
{
    match hall.halt(rt, pass) {
        Ok(duty) => {
            match duty {
                Some(duty) => hall.retire(rt, duty, pass),
                None => {}
            }
            true
        }
        Err(_) => false,
    }
}
