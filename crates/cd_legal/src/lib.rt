//! The history of a server: what may happen in which order, and what it leaves.
//!
//! An `Entry` is one atomic action on the server's configurations. `allowed` and `after` of specs/Legal.antt are the table
//! that says which entry may follow in a `State`, and which state it leaves; a list of entries is legal where each is allowed
//! in the state that those before it leave. All conditions compute, so that a written list is proved legal by computing it.
//!
//! `replay` (replaying.rt) gives the state that a list leaves exactly where it is legal, and else the first place that is not
//! allowed. Its steps stand in drafting.rt, making.rt and tickets.rt, by kinds of entries, and what they ask in conditions.rt.
//! Instances and apps go the same way, as the two kinds of `Part` (part.rt).
//!
//! A history is a legal list whose entries are signed by the passes that may sign them (`IsHistory` of specs/Signing.antt).
//! `state_at` is what it leaves, and `IsPrefix` says that one begins another. The laws (laws.rt) say of every legal list what the
//! layers above need: what a pass owes (Owing), what it has seen (Placed, Fresh), how many requests began (Begins), which
//! configuration has which serial (Serials), what fixtures are asked for (Calls), which entries follow one another (Runs), what a
//! draft that was given up leaves (Abandoned), and when all is ended (Whole).
//!
//! Nothing of modules is known here: the entry of a draft carries its plan. That the plan is that of its tree, and that a
//! published tree is the one that its request asks for, is left to the layers above, and so is making the entries happen.
#![tactic(auto)]

mod conditions;
mod drafting;
mod drafts;
mod entry;
mod fault;
mod keys;
mod laws;
mod limits;
mod making;
mod part;
mod plan;
mod replaying;
mod stands;
mod state;
mod tickets;

pub use entry::{Change, Entry, Signed};
pub use fault::ReplayFault;
pub use laws::{
    abandoned_drafts_leave_all_else, abandoned_drafts_leave_no_trace, begins_are_counted,
    callers_have_one_ticket, closed_drafts_have_no_further_entries, configurations_stay,
    fixtures_are_shut_once, legal_is_fresh, legal_where_nothing_is_refused, live_drafts_are_owed,
    nothing_is_made_twice, openings_fail_by_failed_keys, passes_owe_by_their_own_entries,
    passes_owe_their_tickets, prefixes_are_histories, published_drafts_have_their_serials,
    publishing_and_halting_make_the_serial, serials_are_retired_once,
    the_current_configuration_is_the_last_one, the_serial_never_falls, tickets_stand_apart,
    what_is_over_is_whole,
};
pub use limits::{
    LAST_SERIAL, MAX_BEGINS, MAX_DRAFTS, MAX_LANES, MAX_MODULES, MAX_PASSES, MAX_SEATS,
    MAX_UNRETIRED, limits_in_numbers,
};
pub use part::Part;
pub use plan::{Plan, PlanApp, PlanModule};
pub use replaying::replay;
pub use stands::Stands;
pub use state::{Drafted, Life, OpenTicket, State};
