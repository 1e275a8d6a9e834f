//! The hall over the gate of `cd_gate`, whose requests begin and end by one atomic step each.
//!
//! The board is that of `cd_life`, behind a gate of `cd_gate`; it sees no Begin and no Finish. Each call that adds other entries is
//! a turn of its own: the pass takes the turn once, adds its entries, and leaves the board so that it stands for what the pass has
//! then seen without Begin and Finish. Meanwhile others begin and end requests, so their entries stand between those of a turn.
//!
//! What a call has made is `Spread` of specs/Spread.antt, by the places of its entries; for one entry or none it is `Turned` of
//! specs/Turned.antt, right after the history that it found. `InTurn` of specs/Turns.antt says what holds between two entries of one
//! turn, `GoesOn` of specs/GoesOn.antt what a part of a turn has made, and `Since` of specs/Since.antt the same by places.
//! specs/Dues.antt says which duty comes with the end of a request, and with a halt. specs/AtHand.antt, specs/Follows.antt and
//! specs/Retired.antt say what a part of a turn needs.
//!
//! Files: turns.rt takes a turn, adds entries in it, and leaves it, and names.rt says which entries are added; laws.rt says of a
//! turn where its entries stand; beginning.rt makes a hall; requests.rt begins and ends requests, caching.rt does so without
//! waiting, with what a cache (cache.rt) keeps of the last request, and tickets.rt reads their tickets; drafting.rt makes drafts
//! and what they consist of. publishing.rt, abandoning.rt, retiring.rt and halting.rt end in the same turn what they supersede,
//! give up or retire, by superseding.rt and stopping.rt; a superseded serial is settled at last. What they take out of the board
//! leaves the turn with them, and freeing.rt frees it. closing.rt lets passes tell one another what they have seen, and brings them
//! together at the end. Tickets, drafts, duties, holds and caches are values that are not dropped. Only `new`, `begin`, `fetch` and
//! `draft` take memory.
#![tactic(auto)]

mod abandoning;
mod beginning;
mod cache;
mod caching;
mod closing;
mod drafting;
mod duty;
mod faults;
mod freeing;
mod hall;
mod halting;
mod kept;
mod laws;
mod names;
mod publishing;
mod requests;
mod retiring;
mod stopping;
mod superseding;
mod tickets;
mod turns;

pub use beginning::NoHall;
pub use cache::{Cache, Hold, Now};
pub use closing::Closed;
pub use duty::Duty;
pub use faults::{BeginFault, Halted, KeyFailed, NoFetch};
pub use hall::{Hall, Ticket};
pub use kept::Kept;
pub use laws::{
    a_halt_or_the_last_end_gives_the_duty, a_serial_is_retired_once,
    caches_keep_their_configurations, one_end_gives_the_duty_of_a_serial,
    requests_begin_under_their_tickets, requests_leave_all_else,
    the_beginning_of_a_request_is_one_entry, the_end_of_a_request_is_one_entry,
    tickets_keep_their_configurations, turns_go_on_by_steps, turns_place_their_entries,
    turns_spread_their_entries, turns_spread_what_they_made,
};
