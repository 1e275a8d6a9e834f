//! The pool of keys: who holds which listening address and which log writer.
//!
//! Two configurations may want the same key. The one that takes it first opens it, the one that gives it back last closes
//! it, and in between it stays open. So `take` says whether nobody had the key, and `give` hands the key back where nobody
//! has it any more.
//!
//! Contracts see a pool as its pairs of a key and a holder, in the order in which they were taken, each with the number of
//! its lease, beside how many pairs more there is room for (specs/Pairs.antt). `reserve` takes all memory: `take` and `give`
//! take none, so nothing can be refused while a configuration is shut down. Opening and closing is left to the caller.
//!
//! No call but `count` and `holds` walks over all pairs: a key is looked for by its hash (hashes.rt), and a pair where it was
//! put (slots.rt). Where to look is only a hint, which is tested; where it is out of date all pairs are compared.
#![tactic(auto)]

mod hashes;
mod lease;
mod pool;
mod slots;

pub use lease::{Gave, Lease, Took};
pub use pool::Pool;
