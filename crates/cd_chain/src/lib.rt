//! The routes of a server as one vector of places that name earlier places by number, so that a request walks over numbers and
//! not over settings.
//!
//! `Chain::compile` lays the routes out, the last one first: what follows a route or a handler is then a number that is known
//! before it. A subroute without errors has no place of its own, the steps of a terminal route lead to the end, and a named
//! route is laid out once, however often it is invoked (specs/Places.antt says what each place does).
//!
//! `Chain::answer` gives what `cd_routes::server_answer` gives of the server that the chain was made of, and nothing else unless
//! memory runs out (specs/Chains.antt; the law `chains_answer_alike`). The runner changes one scene in place. What waits for an
//! outcome are frames, of which the last meets it first: changes for an answer, or the errors of a subroute (specs/Frames.antt).
//! Where named routes return to is kept beside them.
//!
//! A list of eight routes or more has an `Index`, which shows the first route from one of them on that may match a path. So the
//! others are skipped (specs/Indexes.antt). What places mean knows nothing of it.
//!
//! Which routes match is left to cd_match, what a handler does to cd_handlers, and what routes mean to cd_routes.
#![tactic(auto)]

mod chain;
mod compiling;
mod framing;
mod index;
mod keys;
mod laws;
mod naming;
mod numbering;
mod place;
mod progress;
mod running;
mod skipping;
mod stepping;

pub use chain::Chain;
pub use index::{Entry, Index};
pub use laws::{chains_answer_alike, chains_cross_threads};
pub use place::{ErrorRoutes, Frame, Place};
pub use progress::{Ended, Progress};
