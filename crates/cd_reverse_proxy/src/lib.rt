//! The command `reverse-proxy`: a server of its own, which relays what comes to one address to upstreams.
//!
//! `proxy_main` (top.rt) is the whole command over whatever output, fixtures, lanes and peers it is given, and its contract is what
//! the command promises: a table by status (specs/Top.antt) of what was seen before and after (specs/Seen.antt). Its words are read
//! first (settings.rt, specs/Settings.antt). Then all memory is taken, the address is opened, the line is said, each lane with its
//! peers is served by `relay_lane` of `cd_gateway` in a thread of its own, and the address is closed again (running.rt, serving.rt,
//! seats.rt, slot.rt, lines.rt). What the lanes and their peers tell together is in specs/Workers.antt.
//!
//! Which upstream is picked, what is sent there and what a response comes to is not decided here. The balancer stands behind a lock
//! that all workers share, and worker j has place j of it.
#![tactic(auto)]

mod counts;
mod ended;
mod laws;
mod lines;
mod running;
mod seats;
mod serving;
mod settings;
mod slot;
mod status;
mod top;

pub use ended::ProxyEnded;
pub use laws::{lanes_without_a_fault_are_not_interrupted, workers_tell_together};
pub use settings::{ProxySettings, WordsFault, read_settings};
pub use status::Status;
pub use top::proxy_main;
