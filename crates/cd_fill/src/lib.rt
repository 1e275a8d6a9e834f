//! What a request is to a configuration, and texts with their placeholders replaced.
//!
//! A `Scene` is the state of a request on its way through the routes: what was asked for, what handlers have made of it so
//! far, and what is to be answered. Its fields are public, since matchers read and handlers change them. `Scene::new` is the
//! scene in which a request meets the first route (specs/Scene.antt).
//!
//! `fill` replaces the placeholders of a text, as `{http.request.method}`, by what they stand for in a scene. `fill_as` does so
//! for a path or a query too, where a `Form` says how what is written and what is filled in are treated. The table of names is
//! in specs/Values.antt, and what a placeholder is in specs/Filling.antt. `placeholders_are_replaced` says what that means in
//! each form, one law for each kind of text. `stands_for` compares a name or a value of a query without writing it out.
//!
//! Which texts are filled is left to the crates above, and so is what a handler changes.
#![tactic(auto)]

mod escapes;
mod failure;
mod fault;
mod filling;
mod form;
mod host;
mod joining;
mod laws;
mod lending;
mod limits;
mod query;
mod request_line;
mod scene;
mod treating;
mod uri;
mod values;
mod variable;

pub use cd_wire::{Fields, Lent, RequestFields, copy_fields};
pub use escapes::stands_for;
pub use failure::Failure;
pub use fault::FillFault;
pub use filling::{fill, fill_as};
pub use form::Form;
pub use host::host_without_port;
pub use laws::{filled_bytes_are, placeholders_are_replaced};
pub use lending::fill_lent;
pub use limits::MAX_FILLED_BYTES;
pub use request_line::RequestLine;
pub use scene::{Scene, let_go, response_of};
pub use uri::{with_slash, with_slash_before};
pub use variable::{Variable, value_of_variable};
