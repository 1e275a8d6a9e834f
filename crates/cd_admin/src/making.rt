//! The tests of a request that look at the tree, up to the tree that is to be loaded.
ghost use Rattle.std.specs.Prelude.{◌≡◌, ◌≢◌, ◌++◌, map, None, Ok, IfOk, OnOk, IsTrue};
ghost use Rattle.std.specs.Option.{ForSome};
ghost use Rattle.std.specs.Str.{bytes_eq};
ghost use Rattle.cd_text.specs.Gives.{Gives};
ghost use Rattle.cd_tree.specs.Tree.{IsSound, text};
ghost use Rattle.cd_path.specs.Editing.{edit};
ghost use Rattle.cd_path.specs.Looking.{look};
ghost use Rattle.cd_ids.specs.Ids.{id_fault, ids, path_of};
ghost use Rattle.cd_tags.specs.Encoding.{tag_text};
ghost use Rattle.cd_tags.specs.Tags.{digest};
ghost use Rattle.cd_admin.specs.Deciding.{below_id, path_in, looked, verb_of, tag_of_value, tag_test, tags_test, matches, edited, differs, made};

use crate::action::Action;
use crate::asked::Asked;
use crate::denial::Denial;
use crate::ending::Ending;
use crate::endpoint::Endpoint;
use crate::fields::{must_revalidate, values_of};
use cd_ids::{IdFault, Index};
use cd_path::{EditFault, Verb, edit, look};
use cd_tags::{IfMatchFault, Tag, holds, read_if_match, tag_of_text};
use cd_text::{List, NoMemory, Text};
use cd_tree::{Path, Tree, equal, one_text_is_of_one_tree, print};
use cd_wire::Field;
use std::alloc::Global;

/// The tree that is to be loaded, or how the request ends before that.
#[tactic(auto, unfolding(crate::specs::Deciding::made))]
pub(crate) fn make(
    alloc: Global,
    tree: &Tree,
    fields: &[Field<'_>],
    asked: &Asked,
) -> Result<Tree, Ending>
    requires sound { IsSound tree.now }
    requires body { ForSome asked.now.body IsSound }
    requires ids { id_fault tree.now ≡ None }
    ensures exact { Gives Ending.NoMemory result (made tree.now fields.now asked.now) }
    ensures sound { IfOk result IsSound }
{
    let path = path_in(alloc, tree, &asked.place)?;
    let verb = verb_of(alloc, tree, &path, asked.action)?;
    matches(alloc, tree, &asked.place, fields)?;
    let made = edited(alloc, tree, verb, &path, &asked.body)?;
    differs(fields, tree, &made)?;
    Ok(made)
}

// ---- the path

#[tactic(auto, unfolding(crate::specs::Deciding::path_in))]
fn path_in(alloc: Global, tree: &Tree, place: &Endpoint) -> Result<Path, Ending>
    requires { id_fault tree.now ≡ None }
    ensures { Gives Ending.NoMemory result (path_in tree.now place.now) }
{
    match place {
        Endpoint::Config(path) => Ok(path.copy(alloc)?),
        Endpoint::Id(id, below) => below_id(alloc, tree, id, below.as_slice()),
        Endpoint::Load | Endpoint::Stop => Ok(Path::root(alloc)),
    }
}

fn below_id(alloc: Global, tree: &Tree, id: &Text, below: &[Text]) -> Result<Path, Ending>
    requires { id_fault tree.now ≡ None }
    ensures { Gives Ending.NoMemory result (below_id id.now below.now (path_of id.now (ids tree.now))) }
{
    let index = index_of(alloc, tree)?;
    match index.find(id) {
        None => Err(Ending::Denied(Denial::UnknownId(id.copy(alloc)?))),
        Some(path) => Ok(path_below(alloc, path, below)?),
    }
}

fn index_of(alloc: Global, tree: &Tree) -> Result<Index, NoMemory>
    requires { id_fault tree.now ≡ None }
    ensures { IfOk result (λ index. index ≡ ids tree.now) }
{
    match Index::build(alloc, tree) {
        Ok(index) => Ok(index),
        Err(IdFault::NoMemory) => Err(NoMemory),
        Err(_) => unreachable!(),
    }
}

fn path_below(alloc: Global, path: &Path, below: &[Text]) -> Result<Path, NoMemory>
    ensures { IfOk result (λ made. made.parts ≡ path.now.parts ++ below.now) }
{
    let mut made = path.copy(alloc)?;
    for part in below {
        made.parts.push(part.copy(alloc)?)?;
    }
    Ok(made)
}

// ---- looks

#[tactic(auto, unfolding(crate::specs::Deciding::verb_of))]
fn verb_of(alloc: Global, tree: &Tree, path: &Path, action: Action) -> Result<Verb, Ending>
    requires { IsSound tree.now }
    ensures { Gives Ending.NoMemory result (verb_of tree.now path.now action) }
{
    match action {
        Action::Look => Err(look_at(alloc, tree, path)),
        Action::Change(verb) => Ok(verb),
    }
}

fn look_at(alloc: Global, tree: &Tree, path: &Path) -> Ending
    requires { IsSound tree.now }
    ensures { result ≢ Ending.NoMemory → result ≡ looked path.now (look tree.now path.now) }
{
    match look(tree, path) {
        Ok(Some(value)) => show(alloc, path, value),
        Ok(None) => show(alloc, path, &Tree::Null),
        Err(fault) => Ending::Denied(Denial::Edit(fault)),
    }
}

/// What a path leads to, with its tag. The text is made once, for both.
fn show(alloc: Global, path: &Path, value: &Tree) -> Ending
    requires { IsSound value.now }
    ensures { result ≢ Ending.NoMemory
        → result ≡ Ending.Shown (tag_text path.now (digest value.now)) (text value.now) }
{
    let Ok(text) = print(alloc, value) else {
        return Ending::NoMemory;
    };
    match tag_of_text(alloc, path, &text) {
        Ok(tag) => Ending::Shown(tag, text),
        Err(_) => Ending::NoMemory,
    }
}

// ---- If-Match

#[tactic(auto, unfolding(crate::specs::Deciding::matches))]
fn matches(alloc: Global, tree: &Tree, place: &Endpoint, fields: &[Field<'_>]) -> Result<(), Ending>
    requires { IsSound tree.now }
    ensures { Gives Ending.NoMemory result (matches tree.now place.now fields.now) }
{
    match place {
        Endpoint::Config(_) | Endpoint::Id(_, _) => {
            let values = values_of(alloc, fields, "if-match")?;
            test_tags(alloc, tree, values.as_slice())
        }
        Endpoint::Load | Endpoint::Stop => Ok(()),
    }
}

fn test_tags(alloc: Global, tree: &Tree, values: &[&[u8]]) -> Result<(), Ending>
    requires { IsSound tree.now }
    ensures { Gives Ending.NoMemory result (tags_test tree.now (map (λ value. value.now) values.now)) }
{
    match values {
        [] => Ok(()),
        [value] => test_tag(alloc, tree, value),
        [_, _, ..] => Err(Ending::Denied(Denial::MalformedIfMatch)),
    }
}

fn test_tag(alloc: Global, tree: &Tree, value: &[u8]) -> Result<(), Ending>
    requires { IsSound tree.now }
    ensures { Gives Ending.NoMemory result (tag_test tree.now (tag_of_value value.now)) }
{
    let Some(tag) = tag_of_value(alloc, value)? else {
        return Err(Ending::Denied(Denial::MalformedIfMatch));
    };
    if holds(alloc, tree, &tag)? {
        Ok(())
    } else {
        Err(Ending::Denied(Denial::FailedIfMatch))
    }
}

fn tag_of_value(alloc: Global, value: &[u8]) -> Result<Option<Tag>, NoMemory>
    ensures { IfOk result (λ tag. tag ≡ tag_of_value value.now) }
{
    match read_if_match(alloc, value) {
        Ok(tag) => Ok(Some(tag)),
        Err(IfMatchFault::Malformed) => Ok(None),
        Err(IfMatchFault::NoMemory) => Err(NoMemory),
    }
}

// ---- the edit

#[tactic(auto, unfolding(crate::specs::Deciding::edited))]
fn edited(
    alloc: Global,
    tree: &Tree,
    verb: Verb,
    path: &Path,
    body: &Option<Tree>,
) -> Result<Tree, Ending>
    requires tree_sound { IsSound tree.now }
    requires body_sound { ForSome body.now IsSound }
    ensures exact { Gives Ending.NoMemory result (edited (edit tree.now verb path.now body.now)) }
    ensures sound { IfOk result IsSound }
{
    match edit(alloc, tree, verb, path, body.as_ref()) {
        Ok(made) => Ok(made),
        Err(EditFault::NoMemory) => Err(Ending::NoMemory),
        Err(fault) => Err(Ending::Denied(Denial::Edit(fault))),
    }
}

#[tactic(auto, unfolding(crate::specs::Deciding::differs))]
fn differs(fields: &[Field<'_>], old: &Tree, new: &Tree) -> Result<(), Ending>
    requires old { IsSound old.now }
    requires new { IsSound new.now }
    ensures { Gives Ending.NoMemory result (differs fields.now old.now new.now) }
{
    if is_same(old, new) && !must_revalidate(fields) {
        Err(Ending::Unchanged)
    } else {
        Ok(())
    }
}

/// Whether the trees are equal, and so have one text.
fn is_same(old: &Tree, new: &Tree) -> bool
    requires old { IsSound old.now }
    requires new { IsSound new.now }
    ensures { result ≡ bytes_eq (text old.now) (text new.now) }
{
    one_text_is_of_one_tree(old, new);
    equal(old, new)
}
