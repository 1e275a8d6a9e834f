//! A gateway: what an upstream is sent for a request, what its bytes come to, and what a client is answered for it.
//!
//! `forward` and `response` are exactly what specs/Forward.antt and specs/Responses.antt define, and bytes begin with one response
//! at most (`responses_are_unique`). `ResponseIntake` reads a response that comes in pieces: it says the same of all the bytes that
//! came, keeps what it made of those that it read, and drops them. So a response costs time and memory in proportion to its
//! length, in chunks too.
//!
//! `exchange` has one exchange with an upstream: what the peers tell of it and what came of it is `Exchanged`
//! (specs/Exchanges.antt). `relay` serves one request: an upstream is picked, the exchange is had, and the client is answered by what
//! came of it, or with 502 (specs/Answers.antt, specs/Replies.antt). A failure of the peers is counted by them. An upstream is good
//! where its response is passed on, and else it is down from then on.
//!
//! The lock round the balancer says nothing of what is in it. So it is proved that the upstream which is dialled is one of the list,
//! and not that it is the one that was picked. The loops over the requests of a connection and the connections of a lane are left to
//! the crates above.
#![tactic(auto)]

mod answering;
mod content;
mod delimiting;
mod exchanges;
mod finals;
mod forwarding;
mod head;
mod hops;
mod intake;
mod laws;
mod limits;
mod own_field;
mod passed_response;
mod reading;
mod relaying;
mod taking;

pub use answering::How;
pub use exchanges::{Outcome, exchange};
pub use forwarding::forward;
pub use intake::ResponseIntake;
pub use laws::{limits_are, responses_are_unique, responses_stay};
pub use limits::MAX_INFORMATIONAL;
pub use passed_response::PassedResponse;
pub use reading::{Reading, response};
pub use relaying::relay;
