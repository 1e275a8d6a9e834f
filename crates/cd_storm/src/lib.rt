//! Storms: the same large workload for the same number, on any machine.
//!
//! `script` gives the configuration that a storm begins with, and the script of each of its lanes: which connections come to it,
//! with which bytes. The values in it are drawn from a generator of numbers whose n-th value is `drawn` of specs/Draws.antt; which
//! value serves which route and which step is in specs/FirstTree.antt and specs/Scripts.antt. No call of these lanes fails.
//!
//! Nothing is run here: that is left to the program, which serves the lanes as it serves any other.
#![tactic(auto)]

mod draws;
mod laws;
mod limits;
mod requests;
mod routes;
mod storm;
mod trees;

pub use draws::{INCREMENT, MULTIPLIER};
pub use laws::{generator_is_pinned, limits_are_pinned, tree_is_sound};
pub use limits::{ADMIN_PORT, BODIES, LANES, LEAST_ROUTES, ROUTE_COUNTS, SERVER_PORT, STEPS};
pub use storm::{Storm, script};
