//! What the types promise, each law as a call that does nothing, or no more than the call that it speaks of.
ghost use Rattle.std.specs.Prelude.{◌≡◌, ◌<◌, ◌++◌, ◌↔◌, true, false, max, Some, is_some, option_map};
ghost use Rattle.std.specs.Option.{ForSome};
ghost use Rattle.cd_outside.specs.declared.given.Given.TheVariants.{Failed};
ghost use Rattle.cd_link.specs.Life.{taken_of, put_of};
ghost use Rattle.cd_link.specs.Lanes.{last_of, past_of, serials};

use crate::{Doorway, Link, LinkLane, Stream};
use cd_outside::{Accepted, Given, Lane};
use std::alloc::Global;

/// Over all stretches of a connection in their order, on any lanes: the bytes that lanes have taken, and then those that are kept for
/// them, are the bytes that came; and those that its stream took, and then those that are to be sent, are the bytes that were written.
pub fn a_connection_keeps_its_bytes<S>(link: &Link<S>)
    ensures read { taken_of link.now.life.value.connections ++ link.now.inbound ≡ link.now.given.value }
    ensures sent { link.now.sent.value ++ link.now.unsent ≡ put_of link.now.life.value.connections }
{
    let _ = link;
}

/// What a lane reports of the connection that is there is the last stretch of that connection's life.
#[tactic(auto, using(crate::proofs::LaneLemmas::last_told))]
pub fn a_lane_reports_its_connection<S, D>(lane: &LinkLane<S, D>, link: &Link<S>)
    requires { lane.now.held ≡ Some link.now }
    ensures { last_of (past_of lane.now.over.value (Some link.now.life.value)).connections ≡ last_of link.now.life.value.connections }
{
    let _ = lane;
    let _ = link;
}

/// On a new connection no request has begun: its serial is 0.
pub fn a_connection_begins_without_a_serial<S>(alloc: Global, stream: S) -> Link<S>
    ensures { result.serial ≡ 0 }
{
    Link::new(alloc, stream)
}

/// A lane declines a request exactly where its serial is older than that of the connection, under which a request has last begun on it in
/// whichever lane. Else the connection has the serial of the request from then on.
pub fn no_request_begins_under_an_older_serial<S: Stream, D: Doorway<Link<S>>>(
    lane: &mut LinkLane<S, D>,
    serial: u32,
) -> Given
    requires { is_some lane.old.held ≡ true }
    ensures declined { ForSome lane.old.held (λ link. result ≡ Failed ↔ serial < link.serial) }
    ensures serial { option_map (λ link. link.serial) lane.new.held ≡ option_map (λ link. max link.serial serial) lane.old.held }
{
    lane.seen(serial)
}

/// What a lane reports of the time before a connection came is the serial that the connection came with. No call on a connection changes
/// its serial but `seen`, so it is that of the last request which any lane let begin on it.
pub fn a_lane_reports_what_a_connection_had_seen<S: Stream, D: Doorway<Link<S>>>(
    lane: &mut LinkLane<S, D>,
) -> Accepted
    requires { is_some lane.old.held ≡ false }
    ensures { lane.new.since.value ≡ lane.old.since.value ++ serials (option_map (λ link. link.serial) lane.new.held) }
{
    lane.accept()
}
