ghost use Rattle.std.specs.Prelude.{◌≡◌, ◌<◌, length, IfOk};
ghost use Rattle.std.specs.Option.{option_copied};
ghost use Rattle.cd_text.specs.Gives.{Gives};
ghost use Rattle.cd_tree.specs.declared.tree.Tree.{out-Tree};
ghost use Rattle.cd_path.specs.Editing.{posted, key_edit, bound, position_edit, last_edit, ellipsis_edit, root_edit};

use crate::elements::{joined, with_appended, with_inserted, with_removed, with_replaced};
use crate::fault::EditFault;
use crate::looking::member_of;
use crate::members::set_member;
use crate::position::place_of;
use crate::verb::Verb;
use cd_text::{List, NoMemory, Text};
use cd_tree::{Shared, Tree, copy};
use std::alloc::Global;

/// The tree that a last part names something in, edited there.
pub(crate) fn edit_last(
    alloc: Global,
    verb: Verb,
    body: &Tree,
    part: &Text,
    tree: &Tree,
) -> Result<Tree, EditFault>
    ensures { Gives EditFault.NoMemory result
        (last_edit verb body.now part.now (out-Tree tree.now)) }
{
    match tree {
        Tree::Object(members) => {
            let value = edit_key(alloc, verb, body, member_of(members, part))?;
            let made = set_member(alloc, members, part, value)?;
            Ok(Tree::Object(Shared::new(alloc, made)?))
        }
        Tree::Items(items) => {
            let at = place_of(room(verb, items), part.as_str())?;
            let made = edit_position(alloc, verb, body, items, at)?;
            Ok(Tree::Items(Shared::new(alloc, made)?))
        }
        _ => Err(EditFault::NotTraversable),
    }
}

/// The tree at the empty path, edited as a key is: null counts as absent, and a removal leaves null.
pub(crate) fn edit_root(
    alloc: Global,
    verb: Verb,
    body: &Tree,
    tree: &Tree,
) -> Result<Tree, EditFault>
    ensures { Gives EditFault.NoMemory result (root_edit verb body.now tree.now) }
{
    let old = match tree {
        Tree::Null => None,
        _ => Some(tree),
    };
    match edit_key(alloc, verb, body, old)? {
        Some(made) => Ok(made),
        None => Ok(Tree::Null),
    }
}

/// A list with the elements of the body after its own.
pub(crate) fn post_all(alloc: Global, body: &Tree, tree: &Tree) -> Result<Tree, EditFault>
    ensures { Gives EditFault.NoMemory result (ellipsis_edit body.now (out-Tree tree.now)) }
{
    let Tree::Items(items) = tree else {
        return Err(EditFault::NotAList);
    };
    let Tree::Items(more) = body else {
        return Err(EditFault::BodyNotList);
    };
    Ok(Tree::Items(Shared::new(alloc, joined(alloc, items, more)?)?))
}

/// What a key has afterwards, from what it has.
fn edit_key(
    alloc: Global,
    verb: Verb,
    body: &Tree,
    old: Option<&Tree>,
) -> Result<Option<Tree>, EditFault>
    ensures { Gives EditFault.NoMemory result (key_edit verb body.now (option_copied old.entry)) }
{
    match (verb, old) {
        (Verb::Post, Some(old)) => Ok(Some(post(alloc, body, old)?)),
        (Verb::Put, Some(_)) => Err(EditFault::KeyExists),
        (Verb::Patch, Some(_)) => Ok(Some(copy(alloc, body)?)),
        (Verb::Delete, Some(_)) => Ok(None),
        (Verb::Post | Verb::Put, None) => Ok(Some(copy(alloc, body)?)),
        (Verb::Patch | Verb::Delete, None) => Err(EditFault::NoSuchKey),
    }
}

/// A list with the body as its last element, and the body in place of anything else.
fn post(alloc: Global, body: &Tree, old: &Tree) -> Result<Tree, NoMemory>
    ensures { IfOk result (λ made. made ≡ posted body.now (out-Tree old.now)) }
{
    let body = copy(alloc, body)?;
    match old {
        Tree::Items(items) => {
            let made = with_appended(alloc, items, body)?;
            Ok(Tree::Items(Shared::new(alloc, made)?))
        },
        _ => Ok(body),
    }
}

/// How many positions the verb may name in a list: PUT also names its end.
fn room(verb: Verb, items: &Shared<Tree>) -> usize
    ensures { result ≡ bound verb items.now }
{
    match verb {
        Verb::Put => items.as_slice().len() + 1,
        _ => items.len(),
    }
}

/// The elements afterwards, for a position that the verb may name.
fn edit_position(
    alloc: Global,
    verb: Verb,
    body: &Tree,
    items: &Shared<Tree>,
    at: usize,
) -> Result<List<Tree>, EditFault>
    requires { at < bound verb items.now }
    ensures { Gives EditFault.NoMemory result (position_edit verb body.now items.now at) }
{
    match verb {
        Verb::Post => Err(EditFault::PositionPost),
        Verb::Put => Ok(with_inserted(alloc, items, at, copy(alloc, body)?)?),
        Verb::Patch => Ok(with_replaced(alloc, items, at, copy(alloc, body)?)?),
        Verb::Delete => Ok(with_removed(alloc, items, at)?),
    }
}
