//! Ids: which object of a tree each `@id` names.
//!
//! Any object may have a member `@id`: a text, or a whole number, which counts as its decimal text. `Index::build` walks a
//! tree once, an object before its members, members by rising key and lists in order, and notes each id with the path of its
//! object. It refuses a tree by the first fault that the walk meets: an id that an earlier object has, or an `@id` of another
//! kind. `ids` and `id_fault` of specs/Ids.antt say which ids and which fault, over the walk of specs/Walk.antt.
//!
//! `check` says only whether a tree has such a fault, and which. Where it has none, which is the usual case, `check` makes no
//! path and no index. The same walk then notes each id alone (`Notes`), and a sort shows whether two are alike. A text is
//! shared with the tree, and a number becomes its decimal text. Where an id is repeated or of another kind, `Index::build`
//! finds the fault, so that faults have one definition.
//!
//! `Index::find` answers the path of an id by a hash, with no memory. What stands at that path, and whether the tree has
//! changed since, is left to the caller.
#![tactic(auto)]

mod checking;
mod fault;
mod index;
mod names;
mod notes;
mod walk;

pub use checking::check;
pub use fault::IdFault;
pub use index::Index;
