//! The program ends: it halts, and all passes come together.
ghost use Rattle.std.specs.Prelude.{◌≡◌, ◌<◌, ◌+◌, ◌∷◌, [], List, length, vec_len};
ghost use Rattle.std.specs.Vec.{vec_capacity};
ghost use Rattle.cd_outside.specs.Counts.{Covers};
ghost use Rattle.cd_outside.specs.FixtureCall.{CallsGrow};
ghost use Rattle.cd_legal.specs.declared.entry.Signed.{Signed};
ghost use Rattle.cd_legal.specs.Calls.{fixture_calls, failures};
ghost use Rattle.cd_legal.specs.Entry.{entries};
ghost use Rattle.cd_legal.specs.Legal.{state_at};
ghost use Rattle.cd_legal.specs.Serials.{publishings};
ghost use Rattle.cd_gate.specs.Ends.{IsFree};
ghost use Rattle.cd_gate.specs.Passes.{view, opening_of};
ghost use Rattle.cd_life.specs.Fits.{AllFit};
ghost use Rattle.cd_life.specs.Shares.{conf_in};
ghost use Rattle.cd_life.specs.Standing.{last_published};
ghost use Rattle.cd_hall.specs.Calls.{IsPassOf};
ghost use Rattle.cd_host.specs.Hosting.{IsClosed};
ghost use Rattle.cd_host.specs.OwnPass.{HasHalted};
ghost use Rattle.cd_host.specs.Seats.{AllFrom, IsIdleAt};

use cd_gate::Pass;
use cd_hall::{Closed, Hall};
use cd_life::Board;
use cd_module_set::ModuleSet;
use cd_outside::Fixtures;
use cd_serve::halt_host;
use std::sync::Wait;

/// Halts the host by the program's pass, unless it was halted before, retires what is due then, and closes the hall with all its
/// passes. `passes`, all but that of the program, has room for one more.
pub fn end_run<R: Wait, M: ModuleSet, F: Fixtures>(
    rt: &R,
    hall: Hall<M, F>,
    root: Pass<Board<M, F>>,
    passes: Vec<Pass<Board<M, F>>>,
) -> Closed<M, F>
    requires root { IsPassOf hall root }
    requires number { (view root).number ≡ 0 }
    requires made { (view root).made ≡ length passes.items + 1 }
    requires joined { (view root).joined ≡ [] }
    requires free { IsFree root }
    requires idle { AllFrom (IsIdleAt hall) 1 passes.items }
    requires room { vec_len passes < vec_capacity passes }
    ensures { (log : List Signed) × IsClosed (view root) passes.items log × AllFit M.plan M.change (entries log)
        × CallsGrow (F.calls (opening_of hall.gate).desk.fixtures) (fixture_calls (entries log)) (F.calls result.fixtures)
        × Covers (failures (entries log)) (F.faults (opening_of hall.gate).desk.fixtures) (F.faults result.fixtures) 0
        × (conf_in result.last ≡ last_published (state_at log)) × (result.published ≡ publishings (entries log)) }
{
    let mut root = root;
    halt_last(rt, &hall, &mut root);
    hall.close(in_front(root, passes))
}

// Halts the host, unless it was halted before, and retires what is due then.
fn halt_last<R: Wait, M: ModuleSet, F: Fixtures>(
    rt: &R,
    hall: &Hall<M, F>,
    root: &mut Pass<Board<M, F>>,
)
    requires root { IsPassOf hall.now root.old }
    requires free { IsFree root.old }
    ensures root { IsPassOf hall.now root.new }
    ensures halts { HasHalted (view root.old) (view root.new) }
    ensures free { IsFree root.new }
{
    halt_host(rt, hall, root);
}

// The list with this value in front of it, for which there is room.
fn in_front<T>(value: T, others: Vec<T>) -> Vec<T>
    requires { vec_len others < vec_capacity others }
    ensures { result.items ≡ value ∷ others.items }
{
    let mut all = others;
    match all.insert(0, value) {
        Ok(()) => all,
        Err(_) => unreachable!(),
    }
}
