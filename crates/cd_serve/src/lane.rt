//! The connections of a lane are served, one after another.
ghost use Rattle.std.specs.Prelude.{◌≡◌, ◌≤◌, ℕ, List, Option, true, false, cond, option_map};
ghost use Rattle.cd_outside.specs.declared.accepted.Accepted.TheVariants as accepted;
ghost use Rattle.cd_outside.specs.declared.past.Past.{Past};
ghost use Rattle.cd_outside.specs.Counts.{Rose};
ghost use Rattle.cd_outside.specs.Past.{after_accept};
ghost use Rattle.cd_outside.specs.Since.{SinceAccept};
ghost use Rattle.cd_legal.specs.Fresh.{Fresh};
ghost use Rattle.cd_legal.specs.Legal.{state_at};
ghost use Rattle.cd_legal.specs.Placed.{placed};
ghost use Rattle.cd_legal.specs.Signing.{IsHistory};
ghost use Rattle.cd_gate.specs.declared.view.View.{View};
ghost use Rattle.cd_gate.specs.Passes.{view};
ghost use Rattle.cd_hall.specs.Caches.{IsCacheOf};
ghost use Rattle.cd_hall.specs.Calls.{IsPassOf};
ghost use Rattle.cd_session.specs.declared.lane_end.LaneHow.TheVariants as how;
ghost use Rattle.cd_serve.specs.Requests.{OwesNothing};
ghost use Rattle.cd_serve.specs.Stepping.{LaneServed, LaneGoesOn, LastCame};

use crate::means::Means;
use cd_admin::Administered;
use cd_gate::Pass;
use cd_hall::{Cache, Hall};
use cd_life::Board;
use cd_outside::{Accepted, Address, Fixtures, Lane};
use cd_session::{Counts, LaneEnd, LaneHow, READ_BYTES};
use std::alloc::Global;
use std::sync::Wait;

/// Serves the connections of the lane until no more comes, until it fails to accept, or until the host has halted. The pass owes
/// nothing, before and after. The configuration of a request is kept for the next one, unless the request has superseded it.
pub fn serve_lane<R: Wait, M: Administered, F: Fixtures, L: Lane>(
    rt: &R,
    alloc: Global,
    hall: &Hall<M, F>,
    pass: &mut Pass<Board<M, F>>,
    lane: &mut L,
) -> LaneEnd
    requires pass { IsPassOf hall.now pass.old }
    requires free { OwesNothing (view pass.old) }
    requires busy { L.busy lane.old ≡ false }
    ensures pass { IsPassOf hall.now pass.new }
    ensures free { OwesNothing (view pass.new) }
    ensures busy { L.busy lane.new ≡ false }
    ensures fresh { IsHistory (view pass.old).seen → Fresh (placed (view pass.new).number (view pass.new).seen) }
    ensures served { LaneServed (record { acts = M.acts; plan = M.plan }) (L.faults lane.old) (L.faults lane.new) result (view pass.old) (view pass.new) (L.since lane.old) (L.since lane.new) (L.past lane.old) (L.past lane.new) }
    ensures later { L.faults lane.old ≤ L.faults lane.new }
    ensures failed { result.how ≡ how.AcceptFault → Rose (L.faults lane.old) (L.faults lane.new) }
    ensures halted { result.how ≡ how.Halted → (state_at (view pass.new).seen).halted ≡ true }
{
    let mut counts = Counts::new();
    let mut cache = Cache::empty();
    let mut room = [0; READ_BYTES];
    for _ in rt.forever() {
        match lane.accept() {
            Accepted::Connection(at) => {
                if serve_accepted(
                    rt,
                    alloc,
                    hall,
                    pass,
                    &mut cache,
                    lane,
                    &at,
                    &mut counts,
                    &mut room,
                ) {
                    cache.end();
                    return counts.end(LaneHow::Halted);
                }
            }
            Accepted::Ended => {
                cache.end();
                return counts.end(LaneHow::Ended);
            }
            Accepted::Failed => {
                cache.end();
                return counts.end(LaneHow::AcceptFault);
            }
        }
    }
    unreachable!()
}

// Serves the connection that has just come, and counts what came of it. Says whether it found the host halted.
fn serve_accepted<R: Wait, M: Administered, F: Fixtures, L: Lane>(
    rt: &R,
    alloc: Global,
    hall: &Hall<M, F>,
    pass: &mut Pass<Board<M, F>>,
    cache: &mut Cache<M>,
    lane: &mut L,
    at: &Address,
    counts: &mut Counts,
    room: &mut [u8; READ_BYTES],
) -> bool
    requires pass { IsPassOf hall.now pass.old }
    requires free { OwesNothing (view pass.old) }
    requires cache { IsCacheOf (view pass.old) cache.old }
    requires busy { L.busy lane.old ≡ true }
    ensures pass { IsPassOf hall.now pass.new }
    ensures cache { IsCacheOf (view pass.new) cache.new }
    ensures free { OwesNothing (view pass.new) }
    ensures busy { L.busy lane.new ≡ false }
    ensures goes { (v : View _) (old then : Option Past) (since told : Option (List ℕ)) (first faults : ℕ)
        → LaneGoesOn (record { acts = M.acts; plan = M.plan }) first faults counts.old.answered counts.old.cut 0 v (view pass.old) since told old then
        → SinceAccept told (accepted.Connection at.now) (L.since lane.old)
        → faults ≤ L.faults lane.old → L.past lane.old ≡ option_map (after_accept (accepted.Connection at.now)) then
        → LaneGoesOn (record { acts = M.acts; plan = M.plan }) first (L.faults lane.new) counts.new.answered counts.new.cut (cond result 1 0) v (view pass.new) since (L.since lane.new) old (L.past lane.new) }
    ensures last { (then : Option Past) → L.past lane.old ≡ option_map (after_accept (accepted.Connection at.now)) then → LastCame at.now (L.past lane.new) }
    ensures later { L.faults lane.old ≤ L.faults lane.new }
    ensures halted { result ≡ true → (state_at (view pass.new).seen).halted ≡ true }
{
    let means = Means {
        rt,
        alloc,
        hall,
        at,
    };
    let end = means.serve_connection(pass, cache, lane, room);
    counts.add(&end);
    end.halted
}
