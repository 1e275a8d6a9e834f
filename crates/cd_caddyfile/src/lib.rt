//! Caddyfiles: which configuration a file means, or its first fault.
//!
//! The definitions are in specs/, in this order: Words, the words of a line. Lines, what a line does. Blocks, the blocks that
//! lines make. Shorthands, Addresses, Matchers and Directives, what words say. Walk, what each line says by where it is.
//! Faults, the first fault. Sites and FileSites, what the sites of a file are. Shape, their tree. Adapting, which joins them.
//! Wording, the words of a fault.
//! Examples of all of them, with near misses, are computed in proofs/Examples.antt.
//!
//! `check` gives the first fault of a file, exactly, but for the limits of its tree, and `read_matchers` the matchers of a file that
//! has none. It reads the file once, a line at a time,
//! and keeps the blocks that are open in a list: nothing recurses, however deep blocks nest. What it keeps besides are the
//! addresses of sites and the names of matchers, which are compared when all lines are read. `fault_words` says it in words.
//!
//! The tree is made by `cd_adapt`, over the calls for lines, addresses, directives and shorthands that are public here.
#![tactic(auto)]

mod actions;
mod address;
mod checking;
mod choice;
mod directive;
mod entry;
mod fault;
mod faults;
mod laws;
mod line;
mod lines;
mod matchers;
mod named;
mod notes;
mod reader;
mod reading;
mod repeats;
mod shorthands;
mod tests;
mod within;
mod word;
mod wording;
mod words;
mod wrong;

pub use address::{Address, address_of};
pub use checking::{check, read_matchers};
pub use choice::{Choice, choice_of, own_args};
pub use directive::{Directive, is_matcher};
pub use entry::Entry;
pub use fault::{CaddyfileFault, CaddyfileKind};
pub use laws::{quoted_words_read_back, words_of_texts_are_texts};
pub use line::Line;
pub use lines::{ReadLine, read_line, without_return};
pub use named::{Located, Matchers, Named, TestLine};
pub use shorthands::spelled;
pub use tests::{Tests, Wanted};
pub use within::Within;
pub use word::{Mark, Word};
pub use wording::fault_words;
