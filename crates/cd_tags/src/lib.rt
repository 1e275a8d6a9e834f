//! Tags: the path of a value and the digest of what stands there, as an entity tag for ETag and If-Match.
//!
//! A tag is `"/config/`, the path, a space, the SHA-256 digest of the value's compact text in 64 lower-case hexadecimal digits,
//! and `"`. In the path each part is percent-encoded but for letters, digits and `-._~`, and `/` stands between parts. An
//! absent key of an object counts as null.
//!
//! `tag` writes the tag of what stands at a path, and refuses a path exactly where `cd_path::look` does. `read_if_match` reads a
//! tag that a client sent, and is Malformed exactly outside the form (specs/IfMatch.antt). `holds` tells whether a tag still
//! holds of a tree, at the tag's own path (specs/Tags.antt). Which requests need a tag is left to the caller.
//!
//! The functions of `laws` change nothing: their contracts are laws of the definitions, as that what is written is read back.
#![tactic(auto)]

mod encoding;
mod fault;
mod if_match;
mod laws;
mod limits;
mod tags;

pub use fault::{IfMatchFault, TagFault};
pub use if_match::{Tag, read_if_match};
pub use laws::{made_tags_hold, tags_read_back, values_have_one_tag};
pub use limits::{HEX_DIGITS, digits_in_numbers};
pub use tags::{holds, tag, tag_of_text};
