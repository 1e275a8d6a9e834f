// Two threads that meet in a gate.
ghost use Rattle.std.specs.Prelude.{◌≡◌, ◌+◌, ◌*◌, [], None, IfOk, IfSome};
ghost use mathlib.Core.List.{IsPrefix};
ghost use Rattle.cd_gate.specs.Passes.{view};
ghost use Rattle.cd_gate_cases.specs.Passes.{Has, HasSeenHalt, begun, Met};

use crate::board::Board;
use crate::halting::halt;
use crate::requests::{Caller, serve};
use cd_fixed::{put_two, take_two};
use cd_gate::{Gate, NoGate, Pass};
use std::alloc::Global;
use std::sync::Wait;
use std::thread::{Threads, join_mut};

/// Why the passes did not meet.
#[derive(Clone, Copy, Debug, PartialEq, Eq)]
pub enum NotMet {
    NoMemory,
    /// No request more may begin.
    Worn,
}

/// What came of it.
#[derive(Clone, Copy, Debug, PartialEq, Eq)]
pub struct Ended {
    pub board: Board,
    /// How many duties the passes had.
    pub duties: u32,
}

// The pass serves so many requests, halts the host, unless it was halted, and serves as many more. It says how many duties it had.
fn play<R: Wait>(caller: &Caller<'_, R>, pass: &mut Pass<Board>, requests: u32) -> Option<u32>
    requires { Has caller.now.gate.now pass.old caller.now.number None [] }
    ensures has { Has caller.now.gate.now pass.new caller.now.number None [] }
    ensures begun { IfSome result (λ _. begun pass.new ≡ begun pass.old + 2 * requests) }
    ensures halted { IfSome result (λ _. HasSeenHalt pass.new) }
{
    let before = serve(caller, pass, requests)?;
    let halted = halt(caller, pass);
    let after = serve(caller, pass, requests)?;
    Some(before.wrapping_add(halted).wrapping_add(after))
}

// Each pass plays in a thread of its own. Then the first tells the second, which has seen what the first had.
fn play_both<R: Threads + Wait + Sync>(
    rt: &R,
    gate: &Gate<Board>,
    one: &mut Pass<Board>,
    two: &mut Pass<Board>,
    requests: u32,
) -> (Option<u32>, Option<u32>)
    requires one { Has gate.now one.old 0 None [] }
    requires two { Has gate.now two.old 1 None [] }
    ensures has { Has gate.now one.new 0 None [] × Has gate.now two.new 1 None [] }
    ensures one { IfSome result.0 (λ _. (begun one.new ≡ begun one.old + 2 * requests) × HasSeenHalt one.new) }
    ensures two { IfSome result.1 (λ _. begun two.new ≡ begun two.old + 2 * requests) }
    ensures told { IsPrefix (view one.new).seen (view two.new).seen }
{
    let played = join_mut(
        rt,
        &mut || {
            let caller = Caller {
                rt,
                gate,
                number: 0,
            };
            play(&caller, one, requests)
        },
        &mut || {
            let caller = Caller {
                rt,
                gate,
                number: 1,
            };
            play(&caller, two, requests)
        },
    );
    gate.tell(one, two);
    played
}

/// Two passes of a gate play, each in a thread of its own, and the gate is closed.
pub fn meet<R: Threads + Wait + Sync>(rt: &R, alloc: Global, requests: u32) -> Result<Ended, NotMet>
    ensures { IfOk result (λ ended. Met ended.board (2 * requests)) }
{
    let (gate, passes) = match Gate::new(alloc, Board::Running, 2) {
        Ok(made) => made,
        Err(NoGate { value: _ }) => return Err(NotMet::NoMemory),
    };
    let (mut one, mut two, empty) = take_two(passes);
    let played = play_both(rt, &gate, &mut one, &mut two, requests);
    let board = gate.close(put_two(empty, one, two));
    match played {
        (Some(first), Some(second)) => Ok(Ended {
            board,
            duties: first.wrapping_add(second),
        }),
        _ => Err(NotMet::Worn),
    }
}
