//! Tags of what is at a path, and the values of If-Match.
//!
//!     {"tag": PATH, "tree": TREE, "found": TAG}      or "refused": FAULT; in place of `tree` also `tree_text`, its BYTES
//!     {"if_match": BYTES, "found": "COUNT PATH DIGITS"}      or "refused": "malformed"
//!     {"holds": BYTES, "tree": TREE, "gives": TRUTH}
//!
//! A tag that is made is read again, and has to hold.
ghost use Rattle.cd_tree.specs.Tree.{IsSound};

use cd_rows::{
    Outcome, RowFault, bytes_at, bytes_of, find, needed, only, path_at, refuses, says, tree_of,
};
use cd_tags::{IfMatchFault, Tag, TagFault, holds, read_if_match, tag};
use cd_tree::{Path, Tree};
use std::alloc::Global;

pub fn tag_outcome(alloc: Global, row: &Tree) -> Result<Outcome, RowFault>
    requires { IsSound row.now }
{
    only(alloc, row, "tag tree tree_text found refused")?;
    let path = path_at(alloc, row, "tag")?;
    match find(row, "tree_text") {
        Some(text) => {
            let text = bytes_of(alloc, text)?;
            tag_at(alloc, &tree_of(alloc, text.as_slice())?, &path)
        }
        None => tag_at(alloc, needed(alloc, row, "tree")?, &path),
    }
}

/// The tag of what is at a path.
pub fn tag_at(alloc: Global, tree: &Tree, path: &Path) -> Result<Outcome, RowFault>
    requires { IsSound tree.now }
{
    match tag(alloc, tree, path) {
        Ok(made) => made_tag(alloc, tree, made.as_str()),
        Err(TagFault::NoPlace(fault)) => {
            let words = format!(in alloc; "{fault:?}")?;
            refuses(alloc, words.as_str())
        }
        Err(TagFault::NoMemory) => Err(RowFault::NoMemory),
    }
}

fn made_tag(alloc: Global, tree: &Tree, made: &str) -> Result<Outcome, RowFault>
    requires { IsSound tree.now }
{
    if is_held(alloc, tree, made.as_bytes())? {
        says(alloc, "found", made)
    } else {
        refuses(alloc, "it does not hold")
    }
}

fn is_held(alloc: Global, tree: &Tree, value: &[u8]) -> Result<bool, RowFault>
    requires { IsSound tree.now }
{
    match read_if_match(alloc, value) {
        Ok(tag) => Ok(holds(alloc, tree, &tag)?),
        Err(_) => Err(RowFault::Malformed("no tag")),
    }
}

pub fn holds_outcome(alloc: Global, row: &Tree) -> Result<Outcome, RowFault>
    requires { IsSound row.now }
{
    only(alloc, row, "holds tree gives")?;
    let value = bytes_at(alloc, row, "holds")?;
    let tree = needed(alloc, row, "tree")?;
    if is_held(alloc, tree, value.as_slice())? {
        says(alloc, "gives", "true")
    } else {
        says(alloc, "gives", "false")
    }
}

pub fn if_match_outcome(alloc: Global, row: &Tree) -> Result<Outcome, RowFault> {
    only(alloc, row, "if_match found refused")?;
    let value = bytes_at(alloc, row, "if_match")?;
    match read_if_match(alloc, value.as_slice()) {
        Ok(tag) => tag_parts(alloc, &tag),
        Err(IfMatchFault::Malformed) => refuses(alloc, "malformed"),
        Err(IfMatchFault::NoMemory) => Err(RowFault::NoMemory),
    }
}

// How many parts the path of a value has, the written path and the digits.
fn tag_parts(alloc: Global, tag: &Tag) -> Result<Outcome, RowFault> {
    let count = tag.path.parts.len();
    let path = tag.path.to_text(alloc)?;
    let (path, hex) = (path.as_str(), tag.hex.as_str());
    let words = format!(in alloc; "{count} {path} {hex}")?;
    says(alloc, "found", words.as_str())
}
