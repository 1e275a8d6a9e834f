ghost use Rattle.std.specs.Prelude.{◌≡◌, ◌≤◌, ◌∷◌, [], false, length, is_some, All, IfOk};
ghost use Rattle.caddy_run.specs.declared.lanes.TheConstants.{LANES, MAX_LANES};

use cd_link::Telling;
use cd_stdio::{Messages, Reporting, TakesNow};
use cd_tcp::{Reactor, TcpLane};
use cd_text::{List, NoMemory};
use std::alloc::Global;
use std::sync::Wait;
use std::time::Clock;

/// How many requests are answered at the same time. Connections whose request is not whole, and those that are quiet, take no lane.
pub const LANES: usize = 8;

/// How many lanes a run may have: each has a pass of the hall, and the program has one.
pub const MAX_LANES: usize = 128;

/// The numbers, which the code cites by name.
pub fn lanes_are()
    ensures lanes { LANES ≡ 8 }
    ensures most { MAX_LANES ≡ 128 }
    ensures fit { (1 ≤ LANES) × (LANES ≤ MAX_LANES) }
{}

/// A list of this lane alone.
pub fn one_lane<L: Drop>(alloc: Global, lane: L) -> Result<List<L>, NoMemory>
    ensures { IfOk result (λ lanes. lanes ≡ lane ∷ []) }
{
    let mut lanes = List::new(alloc);
    lanes.push(lane)?;
    Ok(lanes)
}

/// The lanes of a reactor, which write the messages that wait. They report what their calls have answered, so that contracts speak of
/// it.
pub fn tcp_lanes<'d, R: Wait + Clock, W: TakesNow>(
    rt: &'d R,
    alloc: Global,
    reactor: &'d Reactor,
    messages: &'d Messages<W>,
) -> Result<List<Telling<Reporting<'d, R, TcpLane<'d, R>, W>>>, NoMemory>
    ensures count { IfOk result (λ lanes. length lanes ≡ LANES) }
    ensures idle { IfOk result (λ lanes. All (λ telling. is_some telling.lane.lane.held ≡ false) lanes) }
{
    let mut lanes = List::new(alloc);
    while lanes.len() < LANES {
        lanes.push(tcp_lane(rt, alloc, reactor, messages))?;
    }
    Ok(lanes)
}

// A lane of a reactor that has no connection.
fn tcp_lane<'d, R: Wait + Clock, W: TakesNow>(
    rt: &'d R,
    alloc: Global,
    reactor: &'d Reactor,
    messages: &'d Messages<W>,
) -> Telling<Reporting<'d, R, TcpLane<'d, R>, W>>
    ensures { is_some result.lane.lane.held ≡ false }
{
    let lane = TcpLane::new(rt, alloc, reactor);
    Telling::new(alloc, Reporting::new(rt, alloc, lane, messages))
}
