//! Looks and edits at a path of a tree.
//!
//!     {"edit": VERB, "path": PATH, "tree": TREE, "body": TREE, "gives": TREE}
//!     {"edit": VERB, "path": PATH, "tree_text": BYTES, "body_text": BYTES, "refused": FAULT}
//!     {"look": PATH, "tree": TREE, "gives": TREE}
//!
//! A look that finds nothing has found `absent`.
ghost use Rattle.std.specs.Option.{ForSome, option_copied};
ghost use Rattle.cd_tree.specs.Tree.{IsSound};

use cd_path::{EditFault, Verb, edit, look};
use cd_rows::{
    Outcome, RowFault, bytes_of, find, gives, member, needed, only, path_at, refuses, says,
    text_of, tree_of,
};
use cd_tree::{Path, Tree};
use std::alloc::Global;

pub fn edit_outcome(alloc: Global, row: &Tree) -> Result<Outcome, RowFault>
    requires { IsSound row.now }
{
    only(
        alloc,
        row,
        "edit path tree tree_text body body_text gives gives_text refused",
    )?;
    match find(row, "tree_text") {
        Some(text) => {
            let text = bytes_of(alloc, text)?;
            let tree = tree_of(alloc, text.as_slice())?;
            edit_of(alloc, row, &tree)
        }
        None => edit_of(alloc, row, needed(alloc, row, "tree")?),
    }
}

fn edit_of(alloc: Global, row: &Tree, tree: &Tree) -> Result<Outcome, RowFault>
    requires row { IsSound row.now }
    requires tree { IsSound tree.now }
{
    match find(row, "body_text") {
        Some(text) => {
            let text = bytes_of(alloc, text)?;
            let body = tree_of(alloc, text.as_slice())?;
            edit_by(alloc, row, tree, Some(&body))
        }
        None => edit_by(alloc, row, tree, member(alloc, row, "body")?),
    }
}

fn edit_by(alloc: Global, row: &Tree, tree: &Tree, body: Option<&Tree>) -> Result<Outcome, RowFault>
    requires tree { IsSound tree.now }
    requires body { ForSome (option_copied body) IsSound }
{
    let verb = verb_of(text_of(row, "edit")?)?;
    let path = path_at(alloc, row, "path")?;
    match edit(alloc, tree, verb, &path, body) {
        Ok(made) => gives(alloc, &made),
        Err(fault) => refused(alloc, fault),
    }
}

fn verb_of(word: &str) -> Result<Verb, RowFault> {
    match word {
        "POST" => Ok(Verb::Post),
        "PUT" => Ok(Verb::Put),
        "PATCH" => Ok(Verb::Patch),
        "DELETE" => Ok(Verb::Delete),
        _ => Err(RowFault::Malformed("no verb")),
    }
}

fn refused(alloc: Global, fault: EditFault) -> Result<Outcome, RowFault> {
    let words = format!(in alloc; "{fault:?}")?;
    refuses(alloc, words.as_str())
}

pub fn look_outcome(alloc: Global, row: &Tree) -> Result<Outcome, RowFault>
    requires { IsSound row.now }
{
    only(
        alloc,
        row,
        "look tree tree_text gives gives_text found refused",
    )?;
    let path = path_at(alloc, row, "look")?;
    match find(row, "tree_text") {
        Some(text) => {
            let text = bytes_of(alloc, text)?;
            look_at(alloc, &tree_of(alloc, text.as_slice())?, &path)
        }
        None => look_at(alloc, needed(alloc, row, "tree")?, &path),
    }
}

/// What is at a path.
pub fn look_at(alloc: Global, tree: &Tree, path: &Path) -> Result<Outcome, RowFault>
    requires { IsSound tree.now }
{
    match look(tree, path) {
        Ok(Some(found)) => gives(alloc, found),
        Ok(None) => says(alloc, "found", "absent"),
        Err(fault) => refused(alloc, fault),
    }
}
