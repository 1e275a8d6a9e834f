//! Numbers by keys: which of them may have a key that a text begins with, in any case.
//!
//! A `Table` is filled with numbers that rise. Each has keys, or none, and then every text may be its text. `candidate` gives a
//! number up to a limit, and every number up to that limit that has a key the text begins with is at most it. It may show a
//! number too great, and none too small: keys are kept by a hash of their first bytes, of which nothing is asked, and texts are
//! not compared (specs/Tables.antt).
//!
//! What the numbers stand for, and whether one that is shown is the right one, is left to the crates above.
#![tactic(auto)]

mod buckets;
mod hashing;
mod run;
mod table;

pub use table::{MAX_KEY_BYTES, Table};
