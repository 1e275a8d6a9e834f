//! Texts, bytes and lists.
//!
//! `Text`, `Octets` and `List` own a `String` or a `Vec`, and contracts see them as lists of bytes or of elements: capacities
//! and addresses are in no contract, so a tree of these types is plain data, and "equal" means "the same list". Each call's
//! contract is its whole result as a list function.
//!
//! `NoMemory` is the one error of calls that fail only where memory runs out. The word `Gives` (specs/Gives.antt) says of any
//! result that it is exactly what a definition gives unless memory ran out; `▷` (specs/Steps.antt) chains steps of
//! such definitions, with `refused_where` for a test and `some_or` for a value that may not be there.
//!
//! `by_key` (specs/ByKey.antt) is a list in the order of its elements' keys, as a stable sort by std leaves it: what leads
//! from such a sort to `by_key`, and the laws of that order, is in proofs/ByKeyLemmas.antt.
#![tactic(auto)]

mod escapes;
mod list;
mod memory;
mod numbers;
mod octets;
mod parts;
mod text;

pub use escapes::escapes_are_whole;
pub use list::List;
pub use memory::NoMemory;
pub use numbers::{decimal, number_of};
pub use octets::Octets;
pub use parts::{parts_of, rest_from, split_at_byte};
pub use text::Text;
