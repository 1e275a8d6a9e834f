//! Serving the connections of a lane, and what a lane then tells of the one history.
//!
//! A pass serves a lane: for each request it begins in the history, answers under the configuration that is current there, and
//! finishes. specs/Episodes.antt says which entries that may be and which answer they stand for, specs/Replies.antt what is done
//! for one request, specs/Connections.antt how a connection goes and in which ways it ends, and specs/Lanes.antt what a lane tells
//! of all its connections (`Told`), with the counts that tie each one that was interrupted to a fault or to memory that lacked, and
//! what ended it. specs/Keeping.antt says that the configuration of a change was kept before that was acknowledged, and
//! specs/Complete.antt what a connection has that was not interrupted: all its answers. specs/Reports.antt has
//! what several lanes tell together. All of it is said of the entries of one pass, each with the history before it (`Placed` of
//! `cd_legal`), and of what a set of modules means (`Meaning`). What is sent on a connection is one record (`Sent`).
//!
//! Several lanes may serve a connection in turn. specs/Since.antt says that it never goes back to an older configuration then: each
//! lane is told the serial of each Begin, and a request that the lane declines gets no answer (request.rt, specs/Guarding.antt).
//!
//! The functions of `laws` do nothing: their contracts are laws of these definitions, so that the layers above need not look
//! into them. That no request is answered under an older configuration than its pass has seen is a law of `cd_legal`.
//! answering.rt has the answers to changes that are not made, and to the halt, and sending.rt what is sent for an answer.
//!
//! Files: lane.rt serves the connections of a lane, connection.rt one connection, with its `Means` (what it keeps in mind is a
//! `Session` of `cd_session`, and session.rt goes on after a request), and request.rt one request, which is a `Task`. beginning.rt
//! begins it: without waiting, where the lane has the configuration from its last request. acting.rt does what the configuration of
//! the request says: responding.rt has the answer of an app, and changing.rt makes a change that the admin API decides on, by
//! attempting.rt, opening.rt and halting.rt over the hall (specs/Attempts.antt). keeping.rt keeps a configuration that was
//! published, before that is acknowledged. replying.rt sends an answer and logs its lines, and concluding.rt ends the request. Each
//! of these says what it made in the history by `Places` of `cd_gate`, with specs/Requests.antt for a request and
//! specs/Stepping.antt for a connection and a lane. Only a call of the lane waits, and one of the hall that makes a change, fetches
//! a configuration or retires one.
#![tactic(auto)]

mod acting;
mod answering;
mod attempting;
mod beginning;
mod changing;
mod concluding;
mod connection;
mod fault;
mod halting;
mod how;
mod keeping;
mod lane;
mod laws;
mod means;
mod opening;
mod replying;
mod request;
mod responding;
mod sending;
mod session;
mod task;

pub use answering::{halted_answer, key_words};
pub use attempting::{Attempt, attempt_change};
pub use cd_session::{Cause, ConnectionEnd, LaneEnd, LaneHow};
pub use fault::ChangeFault;
pub use halting::halt_host;
pub use how::How;
pub use lane::serve_lane;
pub use laws::{
    a_halt_since_then_is_of_another, connections_are_complete, connections_are_told_together,
    connections_end, connections_go_on, counts_add_up, lanes_go_on, lanes_tell_together,
    lanes_without_faults_are_whole, later_entries_of_others_change_nothing, what_is_told_stays,
};
pub use opening::open_draft;
pub use sending::{says_close, sent};
