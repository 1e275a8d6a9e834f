//! The handlers of routes that have no routes inside: their settings, and what they do with a request.
//!
//! `Handler` reads one handler out of a tree, by one table of names (specs/Handlers.antt, specs/Names.antt). `effect` is what it
//! does by itself: the request goes on in a scene that it may have changed, or is answered, or fails (specs/Effect.antt). Each
//! handler has a file of its own with its settings, their reader and its meaning, and a file of definitions under the same name.
//!
//! A handler whose texts can't be filled fails with 500 and an empty message, in the scene that it found, where its texts are
//! filled too; so does `rewrite` where what it replaces gets too long (specs/Failing.antt). `vars` alone sets one variable after
//! another: each text sees those before, and they stay where it fails.
//! `rewrite` has its settings in rewrite.rt; rewriting.rt fills its texts, and the crate `cd_rewrite` has its steps.
//! `deed_in` does that with a scene that is lent to it and stays where it is, and gives the changes that `headers` leaves for the
//! answer; `changed` makes them. `deed` is the same of a scene by value.
//!
//! Trees that differ in ids alone are the same handler (laws.rt).
//!
//! In which order handlers come, what follows one, and what becomes of a failure is left to the crates above, and so are
//! `subroute`, which has routes inside, and the route that an `invoke` names.
#![tactic(auto)]

mod body;
mod changes;
mod effects;
mod error;
mod failing;
mod fault;
mod field_values;
mod fields;
mod filling;
mod handler;
mod headers;
mod invoke;
mod kind;
mod laws;
mod outcome;
mod rewrite;
mod rewriting;
mod static_response;
mod status;
mod texts;
mod vars;

pub use body::BodyText;
pub use changes::{Changes, FilledChanges, FilledValues, changed};
pub use effects::{deed, deed_in, effect};
pub use error::StaticError;
pub use field_values::{FieldList, FieldValues};
pub use fields::FilledField;
pub use handler::Handler;
pub use headers::{Headers, ResponseChanges};
pub use invoke::Invoke;
pub use kind::HandlerKind;
pub use laws::{handlers_have_their_names, handlers_see_no_ids};
pub use outcome::{Deed, Done, Effect};
pub use rewrite::{MethodText, Rewrite, Substring};
pub use static_response::StaticResponse;
pub use status::{Status, usual_status};
pub use vars::{Setting, Vars};
