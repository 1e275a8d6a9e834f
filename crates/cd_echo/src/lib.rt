//! The sample app `echo`: it answers each request with the body of the request.
//!
//! `echo_answer` is all that it does (specs/Echo.antt). Where it listens is read by the crate of whole configurations.
#![tactic(auto)]

mod echoing;

pub use echoing::echo_answer;
