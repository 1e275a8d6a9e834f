//! Matchers: when a route is taken.
//!
//! A route's `match` is a list of sets, each an object of matchers by name. A set holds where all its matchers hold, and a
//! route is taken where one of its sets holds, or where it has none. Each matcher has a file of its own, here and in specs/:
//! its settings, how they are read, and when it holds. The names of matchers are one table (kind.rt, specs/Names.antt).
//!
//! `Sets::read` gives the settings, or the first fault with its path. `Sets::holds` says whether they hold for a scene, as
//! specs/Holds.antt defines it. Patterns are read once; no field, no path and no query is copied, lowered or decoded to be
//! compared, and memory is taken where a key of `vars` is filled alone.
//!
//! Trees that differ in ids alone are the same sets (laws.rt).
//!
//! When routes are reached, and what is done then, is left to the crates above.
#![tactic(auto)]

mod header;
mod holding;
mod host;
mod kind;
mod laws;
mod listed;
mod matcher;
mod method;
mod not;
mod path;
mod query;
mod reading;
mod sets;
mod vars;

pub use header::{FieldTest, HeaderMatcher};
pub use host::HostMatcher;
pub use kind::MatcherKind;
pub use laws::{matchers_have_their_names, sets_are_read_alike, sets_see_no_ids};
pub use listed::is_listed;
pub use matcher::{Matcher, MatcherSet};
pub use method::MethodMatcher;
pub use not::NotMatcher;
pub use path::{PathMatcher, PathPattern};
pub use query::{KeyTest, QueryMatcher};
pub use sets::Sets;
pub use vars::{VariableTest, VarsMatcher};
