//! Which upstream is picked next, and how many exchanges each has.
//!
//! Places belong to workers: a worker has one exchange at a time. No call takes memory, so a lock round a balancer is held for
//! a short time.
ghost use Rattle.std.specs.Prelude.{◌≡◌, ◌≤◌, ◌<◌, length};
ghost use Rattle.cd_peers.specs.declared.limits.TheConstants.{MAX_UPSTREAMS, MAX_PLACES};
ghost use Rattle.cd_peers.specs.Balance.{NoneBeyond, count_at, begun, ended, freed, fresh};
ghost use Rattle.cd_peers.specs.Pick.{IsPick};

use crate::limits::{MAX_PLACES, MAX_UPSTREAMS};
use crate::picking::{count, pick, set_down};
use crate::policy::Policy;
use crate::state::BalancerState;
use cd_outside::Address;
use cd_text::List;

/// Upstreams, of which the next one is picked by a policy.
#[derive(Debug, Drop)]
pub struct Balancer {
    pub state: BalancerState,
    pub ghost some: { 0 < length state.upstreams },
    pub ghost few: { length state.upstreams ≤ MAX_UPSTREAMS },
    pub ghost within: { NoneBeyond state },
}

impl Balancer {
    /// A balancer over 1 to `MAX_UPSTREAMS` upstreams. None is down, and all places are free.
    pub fn new(policy: Policy, upstreams: List<Address>) -> Balancer
        requires some { 0 < length upstreams }
        requires few { length upstreams ≤ MAX_UPSTREAMS }
        ensures { result.state ≡ fresh policy upstreams }
    {
        Balancer {
            state: BalancerState {
                policy,
                upstreams,
                down: [false; MAX_UPSTREAMS],
                places: [None; MAX_PLACES],
                last: None,
            },
        }
    }

    /// Picks an upstream for an exchange at this place, and answers its number. An exchange that the place still holds ends
    /// first, and leaves whether its upstream is down.
    pub fn begin(&mut self, place: u32) -> u32
        requires { place < MAX_PLACES }
        ensures picks { IsPick (freed place self.old.state) result }
        ensures begun { self.new.state ≡ begun place result self.old.state }
    {
        self.state.places[place as usize] = None;
        let upstream = pick(&self.state);
        self.state.places[place as usize] = Some(upstream);
        self.state.last = Some(upstream);
        upstream
    }

    /// Ends the exchange at this place, and frees the place. The upstream is down from then on where the exchange was not good,
    /// and not down where it was. At a free place nothing changes.
    pub fn end(&mut self, place: u32, good: bool)
        requires { place < MAX_PLACES }
        ensures { self.new.state ≡ ended place good self.old.state }
    {
        if let Some(upstream) = self.state.places[place as usize] {
            set_down(&mut self.state.down, upstream, !good);
            self.state.places[place as usize] = None;
        }
    }

    /// How many places have an exchange at the upstream of this number: none where no upstream has it.
    pub fn count(&self, upstream: u32) -> u64
        ensures places { result ≡ count_at upstream self.now.state.places }
        ensures none { length self.now.state.upstreams ≤ upstream → result ≡ 0 }
    {
        u64::from(count(&self.state.places, upstream))
    }
}
