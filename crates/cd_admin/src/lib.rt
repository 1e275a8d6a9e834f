//! What a request to the admin API comes to under a configuration (Caddy documentation, "API").
//!
//! `decide` gives, for every request and every tree that is served, exactly one of an answer, the loaded configuration that takes
//! the place of this one, and the halt: `decided` of specs/Deciding.antt, a chain of tests in their order. The first is whether it
//! comes by a host and from an origin that the configuration expects (specs/Origins.antt, over the settings of specs/Admin.antt).
//! The request alone decides the next five (specs/Asking.antt): its path, its method, the halt, its Content-Type and its body. The
//! others look at the tree. The words of refusals are in specs/Words.antt, the answers in specs/Answers.antt.
//!
//! `Administered` is a set of modules whose meaning of a change is this decision by its own verdict. The functions of `laws` do
//! nothing: their contracts are laws of the definitions, as that a request makes no tree with a fault, and halts nothing unless it
//! asks for that.
//!
//! A GET prints what it asks for and nothing around it. A change copies what `cd_path::edit` copies, and the request is not copied.
//!
//! Nothing here publishes, and no address is looked at: whether a request came to the admin's address is left to the caller.
#![tactic(auto)]

mod action;
mod admin;
mod administered;
mod answers;
mod asked;
mod asking;
mod deciding;
mod decision;
mod denial;
mod ending;
mod endpoint;
mod fields;
mod form;
mod laws;
mod making;
mod origins;
mod paths;
mod wording;

pub use admin::{Admin, persists};
pub use administered::Administered;
pub use answers::{done, error_answer};
pub use deciding::decide;
pub use decision::Decision;
pub use laws::{
    changes_are_decided, changes_are_fine, foreign_requests_are_refused, halts_are_asked_for,
    tags_have_their_form,
};
