//! Reading the settings of modules out of a tree: one vocabulary for every reader, and the first fault that is met.
//!
//! A reader takes a value of a tree and its place, and gives settings or the first fault there, with the path of that place.
//! It is written twice in the same shape: as a definition, by the words of specs/Settings.antt, and as code, by the functions
//! here. A contract says that the code gives what the definition gives, unless memory runs out.
//!
//! The order of faults is that of the words: an object's unknown members come before all else, then its members in the order
//! in which they are read, each wholly; a list goes element by element, an object by name member by member. A null
//! member counts as absent, unless null has a meaning there; a null element of a list does not, and is of the wrong kind.
//! A reader that reads values inside by itself is the `recursive` of its body (specs/Recursion.antt).
//!
//! A `Pattern` is a text with a `*` for any bytes, which several modules have among their settings (specs/Patterns.antt).
//!
//! A reader made of these words sees the ids of objects only where it names a member `@id`. To one that names none, trees
//! that differ in ids alone give the same settings, or the same first fault (laws.rt, specs/Bare.antt).
//!
//! Which modules there are and what their settings mean is left to the crates above.
#![tactic(auto)]

mod fault;
mod id;
mod laws;
mod limits;
mod lists;
mod members;
mod named;
mod pattern;
mod settings;
mod unread;
mod values;
mod wording;

pub use fault::{LoadFault, LoadKind, Refusal};
pub use id::{IdFormFault, ModuleId};
pub use laws::{
    ids_are_not_seen, ids_read_back, limits_of_configurations, lists_see_no_ids,
    objects_see_no_ids, recursions_see_no_ids,
};
pub use limits::{
    Limit, MAX_ADDRESSES, MAX_ERROR_SUBROUTES, MAX_EXPANDED_ROUTES, MAX_MODULES, MAX_SERVERS,
};
pub use members::{fields_of, is_a_setting, name_of, needed, optional};
pub use named::{Named, object_by_name, object_by_name_with_nulls};
pub use pattern::{Pattern, ends_in_any_case, starts_in_any_case};
pub use settings::Settings;
pub use unread::{UnreadList, UnreadObject};
pub use values::NumberOrText;
