//! What two passes of one hall do: programs of what happens in such a hall share it.
//!
//! stage.rt says where the passes are at work. Each of them begins and ends requests and halts the host (requests.rt, halting.rt), and
//! makes drafts under a set of `cd_fixed`, publishes them and gives them up (drafting.rt, origins.rt). Each call spends its ticket, draft and duty, also where
//! memory runs out. pair.rt makes the hall with its two passes, and ends it.
//!
//! `Has` of specs/Passes.antt says what a pass has between two calls: a ticket, a draft and duties. `Runs` says it while its request
//! runs, `HasDraft` while it has a draft besides, and `AreIdle` of specs/Pairs.antt of two passes with none of these. Nothing here is part of the server.
#![tactic(auto)]

mod drafting;
mod halting;
mod origins;
mod pair;
mod requests;
mod stage;

pub use drafting::draft_of;
pub use origins::{origin_after, runs};
pub use pair::{Ended, Places, close_hall, open_hall};
pub use stage::{Pair, Player, Refused, Stage, Table};
