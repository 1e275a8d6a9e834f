// A pass begins requests, and ends each before the next. Where the opening configuration is due then, the pass retires it.
ghost use Rattle.std.specs.Prelude.{◌≡◌, ◌+◌, ◌∷◌, [], Some, None, IfSome, true};
ghost use Rattle.cd_gate.specs.Duties.{more_due};
ghost use Rattle.cd_gate_cases.specs.Passes.{Has, HasSeen, HasSeenHalt, begun};

use crate::board::Board;
use cd_gate::{Gate, Names, Pass};
use std::sync::Wait;

/// A request that runs.
#[derive(Clone, Copy, Debug, PartialEq, Eq)]
pub struct Request {
    pub serial: u32,
    /// Whether that is the serial of the halt.
    pub halted: bool,
}

/// By what a pass of this number calls the gate.
#[derive(Drop)]
pub struct Caller<'a, R> {
    pub rt: &'a R,
    pub gate: &'a Gate<Board>,
    pub number: u32,
}

struct NamesRetire;

impl Names<u32> for NamesRetire {
    ghost use Rattle.cd_legal.specs.declared.entry.Entry.TheVariants.{Retire};

    ghost entry = { λ serial. Retire serial };
}

// Begins a request in a turn, as the board says whether the host is halted. None where no request more may begin.
fn begin<R: Wait>(caller: &Caller<'_, R>, pass: &mut Pass<Board>) -> Option<Request>
    requires { Has caller.now.gate.now pass.old caller.now.number None [] }
    ensures has { IfSome result (λ request. Has caller.now.gate.now pass.new caller.now.number (Some request.serial) []) }
    ensures seen { IfSome result (λ request. HasSeen pass.new request) }
    ensures begun { IfSome result (λ _. begun pass.new ≡ begun pass.old + 1) }
    ensures halted { HasSeenHalt pass.old → HasSeenHalt pass.new }
    ensures none { result ≡ None → Has caller.now.gate.now pass.new caller.now.number None [] }
{
    let turn = caller.gate.enter(caller.rt, pass);
    let halted = turn.value.is_halted();
    if !caller.gate.check(pass) {
        caller.gate.leave(turn, pass);
        return None;
    }
    let serial = caller.gate.begin_step(pass);
    caller.gate.leave(turn, pass);
    Some(Request { serial, halted })
}

// Ends the request by one step, which waits for nobody. It says whether its serial is then due.
fn finish<R>(caller: &Caller<'_, R>, pass: &mut Pass<Board>, request: Request) -> bool
    requires has { Has caller.now.gate.now pass.old caller.now.number (Some request.serial) [] }
    requires seen { HasSeen pass.old request }
    ensures has { Has caller.now.gate.now pass.new caller.now.number None (more_due result request.serial []) }
    ensures begun { begun pass.new ≡ begun pass.old }
    ensures halted { HasSeenHalt pass.old → HasSeenHalt pass.new }
{
    caller
        .gate
        .finish_step(pass, request.serial, request.halted)
}

/// The pass retires the serial, which is its duty.
pub fn retire<R: Wait>(caller: &Caller<'_, R>, pass: &mut Pass<Board>, serial: u32)
    requires { Has caller.now.gate.now pass.old caller.now.number None (serial ∷ []) }
    ensures has { Has caller.now.gate.now pass.new caller.now.number None [] }
    ensures begun { begun pass.new ≡ begun pass.old }
    ensures halted { HasSeenHalt pass.old → HasSeenHalt pass.new }
{
    let mut turn = caller.gate.enter(caller.rt, pass);
    turn.value = Board::Retired;
    caller
        .gate
        .note::<u32, NamesRetire>(&mut turn, pass, &serial);
    caller.gate.leave(turn, pass);
}

// The pass begins a request and ends it. It says whether it had a duty, or `None` where no request more may begin.
fn serve_one<R: Wait>(caller: &Caller<'_, R>, pass: &mut Pass<Board>) -> Option<bool>
    requires { Has caller.now.gate.now pass.old caller.now.number None [] }
    ensures has { Has caller.now.gate.now pass.new caller.now.number None [] }
    ensures begun { IfSome result (λ _. begun pass.new ≡ begun pass.old + 1) }
    ensures halted { HasSeenHalt pass.old → HasSeenHalt pass.new }
{
    let request = begin(caller, pass)?;
    if finish(caller, pass, request) {
        retire(caller, pass, request.serial);
        return Some(true);
    }
    Some(false)
}

/// The pass begins and ends so many requests. It says how many duties it had, or `None` where no request more may begin.
pub fn serve<R: Wait>(caller: &Caller<'_, R>, pass: &mut Pass<Board>, requests: u32) -> Option<u32>
    requires { Has caller.now.gate.now pass.old caller.now.number None [] }
    ensures has { Has caller.now.gate.now pass.new caller.now.number None [] }
    ensures begun { IfSome result (λ _. begun pass.new ≡ begun pass.old + requests) }
    ensures halted { HasSeenHalt pass.old → HasSeenHalt pass.new }
{
    let mut duties: u32 = 0;
    for _ in 0..requests {
        if serve_one(caller, pass)? {
            duties = duties.wrapping_add(1);
        }
    }
    Some(duties)
}
