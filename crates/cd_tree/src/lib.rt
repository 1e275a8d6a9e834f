//! Trees: JSON whose numbers are whole, as plain data, with paths into them and readers of objects of settings.
//!
//! `read` gives the tree of a JSON text, or the first fault that holds: `tree_of` of specs/Reading.antt says which, over the
//! grammar and the numbers that serde_json states. Every tree that it gives is sound (specs/Tree.antt): keys rise in each
//! object, and nesting and compact text stay within `MAX_DEPTH` and `MAX_TEXT_BYTES`.
//!
//! A text is read in one pass, straight into the tree (marking.rt), so no other value is in memory beside it. A number that is
//! not whole in range is marked on the way, and makes a fault at the end if it counts (reading.rt, whole.rt).
//! `place_of_json_fault` says in which line and column a text stops being JSON.
//!
//! `print` gives the compact text of a sound tree, which reads back as that tree; `reads_back` says the same of a tree that is
//! not printed, and `one_text_is_of_one_tree` that no two sound trees have one text. `text_length` says how long the text is,
//! and writes nothing. `equal` says whether two trees are equal.
//!
//! Trees share their lists, objects and texts (`Shared`, `SharedText`): `copy` gives an equal tree that owns them together with
//! the first, and takes no memory. Nothing is changed once it is shared. Contracts see plain data, whoever owns it: they compare
//! trees by `≡`, and depth, text and soundness are functions on a tree.
//!
//! `Fields` lends the members of an object by their names. What is lent from a sound object is sound. A reader is given the
//! `Place` of its value, which borrows each part from the readers above it. Only a fault makes a `Path` of its own from it.
//! What is kept is a `Spot`, which shares names that have several owners. The spots below a `Base` share its parts.
//!
//! That a hand-made tree is sound is left to whoever makes it, and where in a configuration a tree is to whoever passes its
//! place.
#![tactic(auto)]

mod base;
mod copies;
mod endings;
mod equality;
mod fault;
mod fields;
mod json_fault;
mod json_place;
mod lengths;
mod limits;
mod marking;
mod measure;
mod numbers;
mod path;
mod place;
mod printing;
mod reading;
mod round_trip;
mod shared;
mod shared_text;
mod spot;
mod spot_parts;
mod tree;
mod way;
mod whole;

pub use base::Base;
pub use copies::{copy, copy_member};
pub use endings::no_tree_ends_in_zero;
pub use equality::equal;
pub use fault::{FieldFault, TreeFault};
pub use fields::Fields;
pub use json_place::{JsonPlace, place_of_json_fault};
pub use lengths::text_length;
pub use limits::{MAX_DEPTH, MAX_TEXT_BYTES, limits_in_numbers};
pub use measure::nesting;
pub use path::Path;
pub use place::Place;
pub use printing::{print, print_ordered};
pub use reading::read;
pub use round_trip::{one_text_is_of_one_tree, reads_back};
pub use shared::Shared;
pub use shared_text::SharedText;
pub use spot::Spot;
pub use tree::{Member, Num, Tree};
