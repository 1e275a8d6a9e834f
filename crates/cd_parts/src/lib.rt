//! Parts of a configuration: what lines of a Caddyfile are as trees, each with the length of its text and its depth.
//!
//! A directive's arguments make a handler (handlers.rt), and the lines of a matcher make the set of a route (names.rt,
//! sets.rt, matchers.rt). Both are trees from their members (making.rt). What is put together from trees is made with its measures
//! (measured.rt), so a tree that is too long or too deep is known before it is made. The set of a named matcher is made once
//! and shared by all lines that name it.
//!
//! `cd_adapt` reads the lines and lays the parts out as routes and servers.
#![tactic(auto)]

mod handlers;
mod lines;
mod making;
mod matchers;
mod measured;
mod names;
mod sets;

pub use handlers::handler;
pub use making::{as_text, list_with, object_with, one_text, text_tree};
pub use matchers::{NamedSet, SetTable, set_by, table_of};
pub use measured::{Measured, Part, list_of, measure, object_of};
