//! What programs of threads share, whatever layer they are about: a set of modules of which each tree is a configuration, and what
//! fixtures were asked for.
//!
//! Of the set (fixed.rt) a program says what its two configurations consist of (`Plans`). Each of them does the same: the admin API
//! answers at each address. A request asks for the one or the other. telling.rt prints the calls of fixtures. By two.rt two passes
//! leave the vector in which they were made, and come back. proofs/Halted.antt says of histories that a halt stays.
//!
//! Nothing here is part of the server.
#![tactic(auto)]

mod fixed;
mod plans;
mod telling;
mod two;

pub use fixed::{Fixed, Form, is_true, load_fixed, request_for};
pub use plans::{Plans, list_of};
pub use telling::{tell_calls, tell_key};
pub use two::{put_two, take_two};
