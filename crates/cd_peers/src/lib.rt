//! The upstreams of a gateway: which one is picked next, and the peers by which a worker has an exchange with one.
//!
//! `Balancer` picks by a policy. Each pick is one that the policy allows (specs/Pick.antt), and each call changes just what
//! specs/Balance.antt says: the places, of which each worker has one, and which upstreams are down. `counts_are_live` is the law
//! over any list of calls: the count of an upstream is the number of its exchanges that were begun and not ended. After `new` a
//! balancer takes no memory, so a lock round it is held for a short time.
//!
//! `Peers` are the way to upstreams, one exchange at a time: a dial, what is put and read, the end. They count their faults, and
//! tell each exchange where they can (specs/Peers.antt). `MemoryPeers` play a script. They fail at the calls that they are told to
//! fail at, where the script is used up, and where memory runs out.
#![tactic(auto)]

mod balancer;
mod dialled;
mod laws;
mod limits;
mod memory_peers;
mod peers;
mod picking;
mod policy;
mod recording;
mod state;

pub use balancer::Balancer;
pub use dialled::Dialled;
pub use laws::{calls_lead_on, counts_are_live, limits_are};
pub use limits::{MAX_PLACES, MAX_UPSTREAMS};
pub use memory_peers::MemoryPeers;
pub use peers::Peers;
pub use policy::Policy;
pub use state::BalancerState;
