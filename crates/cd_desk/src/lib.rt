//! The desk of the board: all that is kept of drafts, whatever the set of modules is.
//!
//! Each call is one entry of the server's history (`cd_legal`), so nothing that it does can be forgotten: what stood for a history
//! stands afterwards for the same history with this entry, which is allowed there (`AddsTo` of specs/Desks.antt). One record ties
//! what is kept to the state that a history leaves, and to the calls that the fixtures were asked for (`Agrees`).
//!
//! Each draft has a row (row.rt) with two lines (line.rt): its instances and its apps, which go the same way. All memory is taken
//! when a draft is made (drafting.rt): each instance has copies of its keys, and room for their leases, and the pool has room for
//! all. `Books` (books.rt) are the rows, by rising numbers of their drafts, with the pool. The row of a closed draft goes at once, so
//! what is kept does not grow with loads that failed.
//!
//! Files: instance.rt takes and gives back the keys of one instance; opening.rt opens and ends one of a line, rows.rt one of a
//! draft, making.rt and steps.rt one as an entry; drafts.rt, lives.rt and tickets.rt have the other entries that lead to a
//! publishing. trimming.rt lets go of the rows of closed drafts; emptying.rt ends a desk of which nothing is left. What is
//! published and given up, and what is tied to modules, is left to `cd_life`.
#![tactic(auto)]

mod beginning;
mod books;
mod callers;
mod closing;
mod desk;
mod drafting;
mod drafts;
mod emptying;
mod instance;
mod left;
mod line;
mod lives;
mod making;
mod opening;
mod retiring;
mod row;
mod rows;
mod serials;
mod steps;
mod stopping;
mod superseding;
mod tickets;
mod trimming;

pub use beginning::NoDesk;
pub use closing::Closing;
pub use desk::Desk;
pub use drafts::DraftFault;
pub use left::{Left, Step};
