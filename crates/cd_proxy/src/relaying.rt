//! One request: an upstream is picked, the exchange is had, and the client is answered.
ghost use Rattle.std.specs.Prelude.{◌≡◌, ◌≤◌, ◌<◌, true, false, length, slice_get, Some, Contains};
ghost use Rattle.cd_outside.specs.Counts.{Rose};
ghost use Rattle.cd_peers.specs.declared.limits.TheConstants.{MAX_PLACES};
ghost use Rattle.cd_peers.specs.Balance.{ended};
ghost use Rattle.cd_proxy.specs.declared.answering.How.TheVariants as how;
ghost use Rattle.cd_proxy.specs.Answers.{is_good};
ghost use Rattle.cd_proxy.specs.Replies.{RequestRelayed};

use crate::answering::{How, reply};
use crate::exchanges::{Outcome, exchange};
use cd_outside::{Address, Lane};
use cd_peers::{Balancer, Peers};
use cd_wire::Request;
use std::alloc::Global;
use std::sync::{Mutex, Wait};

// The upstream of this number, or the first: nothing is known here of the number that another balancer answers.
fn at_or_first<'a>(upstreams: &'a [Address], number: u32) -> &'a Address
    requires { 0 < length upstreams.now }
    ensures one { Contains upstreams.now result.now }
    ensures is { number < length upstreams.now → slice_get upstreams.now number ≡ Some result.now }
{
    match upstreams.get(number as usize) {
        Some(upstream) => upstream,
        None => &upstreams[0],
    }
}

fn pick_upstream<'a, R: Wait>(
    rt: &R,
    balancer: &Mutex<Balancer>,
    upstreams: &'a [Address],
    place: u32,
) -> &'a Address
    requires place { place < MAX_PLACES }
    requires some { 0 < length upstreams.now }
    ensures { Contains upstreams.now result.now }
{
    let number = balancer.lock(rt).begin(place);
    at_or_first(upstreams, number)
}

fn is_good(came: &Outcome) -> bool
    ensures { result ≡ is_good came.now }
{
    match came {
        Outcome::Passed(_) => true,
        Outcome::Bad | Outcome::Failed | Outcome::NoMemory => false,
    }
}

// Ends the exchange at the place, of which this came. Its upstream is down from then on where that was not good.
fn settle(balancer: &mut Balancer, place: u32, came: &Outcome)
    requires { place < MAX_PLACES }
    ensures { balancer.new.state ≡ ended place (is_good came.now) balancer.old.state }
{
    balancer.end(place, is_good(came));
}

fn settle_in<R: Wait>(rt: &R, balancer: &Mutex<Balancer>, place: u32, came: &Outcome)
    requires { place < MAX_PLACES }
{
    let mut held = balancer.lock(rt);
    settle(&mut held, place, came);
}

/// Has an exchange for the request with one of the upstreams, and answers the client. The lane has the connection of the client,
/// and keeps it; the peers have no exchange, before and after.
pub fn relay<R: Wait, L: Lane, P: Peers>(
    rt: &R,
    alloc: Global,
    balancer: &Mutex<Balancer>,
    upstreams: &[Address],
    place: u32,
    lane: &mut L,
    peers: &mut P,
    request: &Request,
) -> How
    requires place { place < MAX_PLACES }
    requires some { 0 < length upstreams.now }
    requires busy { L.busy lane.old ≡ true }
    requires idle { P.busy peers.old ≡ false }
    ensures busy { L.busy lane.new ≡ true }
    ensures idle { P.busy peers.new ≡ false }
    ensures relayed { RequestRelayed upstreams.now request.now result (L.past lane.old) (L.past lane.new) (P.past peers.old) (P.past peers.new) (P.faults peers.old) (P.faults peers.new) }
    ensures later { L.faults lane.old ≤ L.faults lane.new }
    ensures failed { result ≡ how.Failed → Rose (L.faults lane.old) (L.faults lane.new) }
{
    let to = pick_upstream(rt, balancer, upstreams, place);
    let came = exchange(rt, alloc, peers, request, to);
    settle_in(rt, balancer, place, &came);
    reply(alloc, lane, request, &came)
}
