//! Ids of the objects of a tree.
//!
//!     {"find": ID, "tree": TREE, "found": PATH}      or "found": "none"; in place of `tree` also `tree_text`, its BYTES
//!     {"find": ID, "tree": TREE, "refused": WORDS}      as `repeated ID PATH PATH` or `kind PATH`
use cd_ids::{IdFault, Index};
use cd_rows::{Outcome, RowFault, bytes_at, find, only, refuses, says, text_of, tree_of};
use cd_text::{NoMemory, Text};
use cd_tree::{Path, Tree};
use std::alloc::Global;

pub fn find_outcome(alloc: Global, row: &Tree) -> Result<Outcome, RowFault> {
    only(alloc, row, "find tree tree_text found refused")?;
    let id = text_of(row, "find")?;
    match find(row, "tree") {
        Some(tree) => found_in(alloc, tree, id),
        None => {
            let text = bytes_at(alloc, row, "tree_text")?;
            found_in(alloc, &tree_of(alloc, text.as_slice())?, id)
        }
    }
}

fn found_in(alloc: Global, tree: &Tree, id: &str) -> Result<Outcome, RowFault> {
    match Index::build(alloc, tree) {
        Ok(index) => found(alloc, &index, id),
        Err(fault) => {
            let words = words(alloc, &fault)?;
            refuses(alloc, words.as_str())
        }
    }
}

fn found(alloc: Global, index: &Index, id: &str) -> Result<Outcome, RowFault> {
    let id = Text::from_str(alloc, id)?;
    let path = written(alloc, index.find(&id))?;
    says(alloc, "found", path.as_str())
}

fn written(alloc: Global, path: Option<&Path>) -> Result<Text, NoMemory> {
    match path {
        None => Text::from_str(alloc, "none"),
        Some(path) => path.to_text(alloc),
    }
}

fn words(alloc: Global, fault: &IdFault) -> Result<String, NoMemory> {
    match fault {
        IdFault::Repeated(id, first, second) => repeated(alloc, id, first, second),
        IdFault::BadKind(path) => {
            let path = path.to_text(alloc)?;
            let path = path.as_str();
            Ok(format!(in alloc; "kind {path}")?)
        }
        IdFault::NoMemory => Err(NoMemory),
    }
}

fn repeated(alloc: Global, id: &Text, first: &Path, second: &Path) -> Result<String, NoMemory> {
    let first = first.to_text(alloc)?;
    let second = second.to_text(alloc)?;
    let (id, first, second) = (id.as_str(), first.as_str(), second.as_str());
    Ok(format!(in alloc; "repeated {id} {first} {second}")?)
}
