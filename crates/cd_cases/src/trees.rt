//! Trees read and printed, and objects of settings.
//!
//!     {"read": BYTES, "gives_text": BYTES}      or "refused": FAULT
//!     {"nesting": BYTES, "gives": NUMBER}
//!     {"json_fault": BYTES, "found": "line LINE column COLUMN"}      or "found": "JSON"
//!     {"need": NAME, "names": NAMES, "at": PATH, "tree": TREE, "gives": TREE}      or "refused": WORDS
//!
//! What is read is printed, read again and copied, and has to be the same tree with the same text. The names of `names` are
//! joined by single spaces.
ghost use Rattle.std.specs.Prelude.{IfOk};
ghost use Rattle.cd_tree.specs.Tree.{IsSound};

use cd_rows::{
    Outcome, RowFault, bytes_at, gives, needed, only, path_at, refuses, says, text_of, tree_of,
};
use cd_text::Text;
use cd_tree::{
    FieldFault, Fields, Path, Place, Tree, TreeFault, copy, equal, nesting, place_of_json_fault,
    print, read,
};
use std::alloc::Global;

pub fn read_outcome(alloc: Global, row: &Tree) -> Result<Outcome, RowFault> {
    only(alloc, row, "read gives gives_text refused")?;
    let bytes = bytes_at(alloc, row, "read")?;
    match read(alloc, bytes.as_slice()) {
        Ok(tree) => printed(alloc, &tree),
        Err(fault) => refused(alloc, fault),
    }
}

fn refused(alloc: Global, fault: TreeFault) -> Result<Outcome, RowFault> {
    let words = format!(in alloc; "{fault:?}")?;
    refuses(alloc, words.as_str())
}

fn printed(alloc: Global, tree: &Tree) -> Result<Outcome, RowFault>
    requires { IsSound tree.now }
{
    let text = print(alloc, tree)?;
    if is_text_of(alloc, text.as_str(), tree)? {
        says(alloc, "gives", text.as_str())
    } else {
        says(alloc, "found", "another tree when it was read again")
    }
}

// Whether the tree of the text is this one, and so is a copy of it, which has the same text.
fn is_text_of(alloc: Global, text: &str, tree: &Tree) -> Result<bool, RowFault> {
    let again = tree_of(alloc, text.as_bytes())?;
    let copied = copy(alloc, &again)?;
    let same = print(alloc, &again)?.equals(text);
    Ok(same && equal(&copied, tree))
}

pub fn nesting_outcome(alloc: Global, row: &Tree) -> Result<Outcome, RowFault> {
    only(alloc, row, "nesting gives gives_text")?;
    let bytes = bytes_at(alloc, row, "nesting")?;
    let depth = nesting(&tree_of(alloc, bytes.as_slice())?);
    let text = format!(in alloc; "{depth}")?;
    says(alloc, "gives", text.as_str())
}

/// Where a text stops being JSON.
pub fn json_fault_outcome(alloc: Global, row: &Tree) -> Result<Outcome, RowFault> {
    only(alloc, row, "json_fault found")?;
    let bytes = bytes_at(alloc, row, "json_fault")?;
    match place_of_json_fault(alloc, bytes.as_slice())? {
        None => says(alloc, "found", "JSON"),
        Some(place) => {
            let (line, column) = (place.line, place.column);
            let words = format!(in alloc; "line {line} column {column}")?;
            says(alloc, "found", words.as_str())
        }
    }
}

pub fn need_outcome(alloc: Global, row: &Tree) -> Result<Outcome, RowFault>
    requires { IsSound row.now }
{
    only(alloc, row, "need names at tree gives gives_text refused")?;
    let at = path_at(alloc, row, "at")?;
    let tree = needed(alloc, row, "tree")?;
    match needed_below(alloc, row, tree, at.parts.as_slice(), &Place::top())? {
        Ok(found) => gives(alloc, found),
        Err(fault) => refused_at(alloc, &fault),
    }
}

// What is needed of a tree that stands at these parts below a place.
fn needed_below<'a>(
    alloc: Global,
    row: &Tree,
    tree: &'a Tree,
    parts: &[Text],
    at: &Place<'_>,
) -> Result<Result<&'a Tree, FieldFault>, RowFault>
    requires { IsSound tree.now }
    ensures { IfOk result (λ answer. IfOk answer (λ found. IsSound found.now)) }
{
    match parts {
        [] => needed_of(alloc, &*row, tree, &*at),
        [part, others @ ..] => {
            let here = (&*at).member(part.as_str());
            needed_below(alloc, &*row, tree, others, &here)
        }
    }
}

fn needed_of<'a>(
    alloc: Global,
    row: &Tree,
    tree: &'a Tree,
    at: &Place<'_>,
) -> Result<Result<&'a Tree, FieldFault>, RowFault>
    requires { IsSound tree.now }
    ensures { IfOk result (λ answer. IfOk answer (λ found. IsSound found.now)) }
{
    let name = text_of(row, "need")?;
    let names = text_of(row, "names")?;
    match Fields::over(alloc, tree, at, names) {
        Ok(fields) => Ok(fields.need(alloc, at, name)),
        Err(fault) => Ok(Err(fault)),
    }
}

fn refused_at(alloc: Global, fault: &FieldFault) -> Result<Outcome, RowFault> {
    match fault {
        FieldFault::UnknownMember(at) => kind_at(alloc, "unknown", at),
        FieldFault::WrongKind(at) => kind_at(alloc, "kind", at),
        FieldFault::Missing(at) => kind_at(alloc, "missing", at),
        FieldFault::NoMemory => Err(RowFault::NoMemory),
    }
}

fn kind_at(alloc: Global, kind: &str, at: &Path) -> Result<Outcome, RowFault> {
    let at = at.to_text(alloc)?;
    let at = at.as_str();
    let words = format!(in alloc; "{kind} {at}")?;
    refuses(alloc, words.as_str())
}
