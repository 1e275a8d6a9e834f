//! What is asked for, rewritten: the steps of the handler `rewrite`, over texts that are filled already.
//!
//! `Rewriting` says what is done to a method, a path and a query, and `rewritten` does it on a copy, step by step
//! (specs/Steps.antt). Paths have their escapes read; the uri of a request is written again where its path or its query becomes
//! another (specs/UriText.antt). How occurrences of a text are replaced is said in specs/Substrings.antt, and
//! `occurrences_are_replaced` says what that means. What a replacement makes may have no more bytes than a filled text.
//!
//! Which texts a configuration gives, and how they are filled, is left to the crate above.
#![tactic(auto)]

mod laws;
mod rewriting;
mod steps;
mod substrings;
mod uri_text;

pub use laws::occurrences_are_replaced;
pub use rewriting::{QueryChange, Replacement, Rewriting, Target};
pub use steps::rewritten;
