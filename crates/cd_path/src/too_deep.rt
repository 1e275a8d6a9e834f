ghost use Rattle.std.specs.Prelude.{◌≡◌, [], drop, false, IsTrue, IfOk, IfSome};
ghost use Rattle.std.specs.Option.{option_copied};
ghost use Rattle.cd_tree.specs.declared.tree.Tree.{Object, out-Tree};
ghost use Rattle.cd_tree.specs.declared.tree.Tree.TheOpen.{Tree-F};
ghost use Rattle.cd_path.specs.Editing.{entered};
ghost use Rattle.cd_path.specs.Looking.{ends_in_ellipsis, member_at};
ghost use Rattle.cd_path.specs.TooDeep.{PutsTooDeep, IsWayInto};
ghost use Rattle.cd_path.specs.declared.verb.Verb.TheVariants.{Put};

use crate::looking::{has_last_ellipsis, member_of};
use crate::position::place_of;
use cd_text::{List, NoMemory, Text};
use cd_tree::{MAX_DEPTH, Member, Shared, Tree};
use std::alloc::Global;

/// Whether a PUT at these parts makes more levels than a sound tree may have, as parts that the tree lacks are too many.
///
/// It follows the parts in a loop. An edit that it lets pass goes down through the levels of its tree, and then through at
/// most `MAX_DEPTH` more, so that no stack grows with the path. It takes memory for an empty object alone.
pub(crate) fn puts_too_deep(alloc: Global, tree: &Tree, parts: &[Text]) -> Result<bool, NoMemory>
    ensures { IfOk result (λ answer. IsTrue answer → PutsTooDeep parts.now tree.now) }
{
    if has_last_ellipsis(parts) {
        return Ok(false);
    }
    let empty = Tree::Object(Shared::new(alloc, List::new(alloc))?);
    Ok(follow(tree, parts, &empty))
}

fn follow(tree: &Tree, parts: &[Text], empty: &Tree) -> bool
    requires empty { empty.now ≡ Object [] }
    requires plain { ends_in_ellipsis parts.now ≡ false }
    ensures { IsTrue result → PutsTooDeep parts.now tree.now }
{
    let (mut here, mut left) = (tree, parts);
    while left.len() > MAX_DEPTH {
        if is_empty_object(here) {
            return true;
        }
        let Some(value) = way_into(here, &left[0], empty) else {
            return false;
        };
        here = value;
        left = after_first(left);
    }
    false
}

fn after_first(parts: &[Text]) -> &[Text]
    ensures { result.now ≡ drop 1 parts.now }
{
    match parts {
        [] => parts,
        [_, rest @ ..] => rest,
    }
}

fn is_empty_object(tree: &Tree) -> bool
    ensures { IsTrue result → out-Tree tree.now ≡ Tree-F.Object [] }
{
    match tree {
        Tree::Object(members) => members.is_empty(),
        _ => false,
    }
}

/// What a PUT goes on in after a part: an empty object in the place of null and of an absent member.
fn way_into<'a>(tree: &'a Tree, part: &Text, empty: &'a Tree) -> Option<&'a Tree>
    requires { empty.now ≡ Object [] }
    ensures { IfSome (option_copied result) (IsWayInto part.now tree.now) }
{
    match tree {
        Tree::Object(members) => Some(member_or(members, part, empty)),
        Tree::Items(items) => match place_of(items.len(), part.as_str()) {
            Ok(at) => Some(&items.as_slice()[at]),
            Err(_) => None,
        },
        _ => None,
    }
}

fn member_or<'a>(members: &'a Shared<Member>, part: &Text, empty: &'a Tree) -> &'a Tree
    requires { empty.now ≡ Object [] }
    ensures { result.now ≡ entered Put (member_at part.now members.now) }
{
    match member_of(members, part) {
        None | Some(Tree::Null) => empty,
        Some(value) => value,
    }
}
