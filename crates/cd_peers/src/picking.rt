//! The upstream that a balancer picks.
ghost use Rattle.std.specs.Prelude.{◌≡◌, ◌+◌, ◌≤◌, ◌<◌, ℕ, Bool, true, false, not, ◌||◌, List, Option, length, slice_set, slice_index_or, None};
ghost use Rattle.cd_peers.specs.declared.limits.TheConstants.{MAX_UPSTREAMS, MAX_PLACES};
ghost use Rattle.cd_peers.specs.Balance.{count_at, is_at, is_down};
ghost use Rattle.cd_peers.specs.Pick.{IsPick, rank, turns_after, size};
ghost use Rattle.cd_peers.specs.Picking.{IsLeast, may};

use crate::limits::{MAX_PLACES, MAX_UPSTREAMS};
use crate::policy::Policy;
use crate::state::BalancerState;

/// Whether the place holds an exchange at this upstream.
fn is_at(upstream: u32, place: Option<u32>) -> bool
    ensures { result ≡ is_at upstream place }
{
    match place {
        Some(other) => other == upstream,
        None => false,
    }
}

/// How many places hold one.
pub(crate) fn count(places: &[Option<u32>], upstream: u32) -> u32
    requires { length places.now ≤ MAX_PLACES }
    ensures value { result ≡ count_at upstream places.now }
{
    let mut count = 0;
    for place in places {
        if is_at(upstream, *place) {
            count += 1;
        }
    }
    count
}

// How far the upstream comes after the one that was picked last, going round.
fn turns_after(last: Option<u32>, size: u32, upstream: u32) -> u32
    requires few { size ≤ MAX_UPSTREAMS }
    requires within { upstream < size }
    ensures { result ≡ turns_after last size upstream }
{
    match last {
        None => upstream,
        Some(last) => {
            if last < upstream {
                upstream - last
            } else {
                (size + upstream).saturating_sub(last)
            }
        }
    }
}

// What the policy prefers the least of.
fn rank(state: &BalancerState, upstream: u32) -> u32
    requires few { size state.now ≤ MAX_UPSTREAMS }
    requires within { upstream < size state.now }
    ensures { result ≡ rank state.now.policy state.now upstream }
{
    match state.policy {
        Policy::First => 0,
        Policy::RoundRobin => turns_after(state.last, state.upstreams.len() as u32, upstream),
        Policy::LeastConn => count(&state.places, upstream),
    }
}

// Whether the upstream may be picked: `any` says that one that is down may be.
fn may(state: &BalancerState, any: bool, upstream: u32) -> bool
    requires { upstream < MAX_UPSTREAMS }
    ensures { result ≡ may state.now any upstream }
{
    any || !state.down[upstream as usize]
}

// The one of the least rank that was found, and its rank.
#[derive(Clone, Copy)]
pub(crate) struct Least {
    pub upstream: u32,
    pub rank: u32,
}

// The one found so far, or the next one where its rank is less.
#[tactic(auto, using(crate::proofs::PickLemmas::first_found, crate::proofs::PickLemmas::lesser_found, crate::proofs::PickLemmas::found_stays))]
fn lesser(found: Option<Least>, upstream: u32, rank: u32) -> Option<Least>
    ensures { (f : ℕ → ℕ) (test : ℕ → Bool) → test upstream ≡ true → rank ≡ f upstream
        → IsLeast f test upstream found → IsLeast f test (upstream + 1) result }
{
    match found {
        Some(least) => {
            if rank < least.rank {
                Some(Least { upstream, rank })
            } else {
                found
            }
        }
        None => Some(Least { upstream, rank }),
    }
}

// The one of the least rank among those that may be picked, if there is one.
#[tactic(auto, using(crate::proofs::PickLemmas::passed_over))]
fn least_of(state: &BalancerState, any: bool) -> Option<Least>
    requires few { size state.now ≤ MAX_UPSTREAMS }
    ensures { IsLeast (rank state.now.policy state.now) (may state.now any) (size state.now) result }
{
    let mut found = None;
    for upstream in 0..state.upstreams.len() as u32 {
        if may(state, any, upstream) {
            found = lesser(found, upstream, rank(state, upstream));
        }
    }
    found
}

/// The upstream that is picked: of those that are not down, and of all where all are down.
#[tactic(auto, using(crate::proofs::PickLemmas::pick_of_up, crate::proofs::PickLemmas::pick_of_all, crate::proofs::PickLemmas::not_none))]
pub(crate) fn pick(state: &BalancerState) -> u32
    requires some { 0 < size state.now }
    requires few { size state.now ≤ MAX_UPSTREAMS }
    ensures { IsPick state.now result }
{
    if let Some(found) = least_of(state, false) {
        return found.upstream;
    }
    match least_of(state, true) {
        Some(found) => found.upstream,
        None => unreachable!(),
    }
}

/// Says of an upstream whether it is down.
pub(crate) fn set_down(down: &mut [bool], upstream: u32, is: bool)
    ensures { down.new ≡ slice_set down.old upstream is }
{
    if (upstream as usize) < down.len() {
        down[upstream as usize] = is;
    }
}
