//! Paths into a tree: what stands at one, and what an edit there makes, as the admin interface of Caddy has it.
//!
//! `look` lends the value at a path, takes no memory, and is exactly the definition of specs/Looking.antt; what it lends of a
//! sound tree is sound. `edit` gives the tree that POST, PUT, PATCH or DELETE at a path makes: exactly the one of
//! specs/Editing.antt, or the first refusal in the order there. The result is sound, the old tree stays, and `look` finds in
//! the result what it found before at each path that is not the place, above it, below it, or at or below an element after
//! it in its list (specs/Apart.antt).
//!
//! The functions of `laws` do nothing: their contracts are laws of the definitions, as that two PUTs at different absent
//! keys of one object may be done in either order.
//!
//! Which path a request names, and whether a change of the tree may take effect, is left to the caller.
#![tactic(auto)]

mod editing;
mod elements;
mod fault;
mod last_part;
mod laws;
mod looking;
mod members;
mod position;
mod too_deep;
mod verb;

pub use editing::edit;
pub use fault::EditFault;
pub use laws::{
    absent_keys_take_puts, bodies_are_found, deleted_keys_are_absent, posts_append_or_set,
    puts_commute,
};
pub use looking::look;
pub use verb::Verb;
