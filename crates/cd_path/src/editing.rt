ghost use Rattle.std.specs.Prelude.{◌≡◌, [], length, IsTrue, IfOk};
ghost use Rattle.std.specs.Option.{option_copied, ForSome};
ghost use Rattle.cd_text.specs.Gives.{Gives};
ghost use Rattle.cd_text.specs.Steps.{◌▷◌};
ghost use Rattle.cd_tree.specs.Tree.{IsSound, is_ordered};
ghost use Rattle.cd_tree.specs.declared.tree.Tree.{Null, Object};
ghost use Rattle.cd_path.specs.Apart.{LeavesOthers};
ghost use Rattle.cd_path.specs.Editing.{entered, within_limits, change as change_of, edit as edit_of};

use crate::elements::with_replaced;
use crate::fault::EditFault;
use crate::last_part::{edit_last, edit_root, post_all};
use crate::looking::{has_last_ellipsis, member_of};
use crate::members::set_member;
use crate::position::place_of;
use crate::too_deep::puts_too_deep;
use crate::verb::Verb;
use cd_text::{List, Text};
use cd_tree::{MAX_DEPTH, MAX_TEXT_BYTES, Path, Shared, Tree, nesting, text_length};
use std::alloc::Global;

/// The tree that the verb makes of this one at a path. The old tree stays, and the new one shares with it what the edit leaves
/// as it is.
///
/// At a key, POST appends to a list and sets anything else, PUT makes what is absent, PATCH replaces and DELETE removes what
/// is present (Caddy documentation, "API", `/config/[path]`). At a position of a list, PUT inserts before it. At the empty
/// path the whole tree is taken as the value of a key, null as absent. POST with a last part `...` appends each element of
/// the body. A body of DELETE is ignored.
///
/// The refusals come in this order: EllipsisVerb, BodyMissing, those of the parts from first to last, BodyNotList,
/// ResultTooDeep, ResultTooLong.
pub fn edit(
    alloc: Global,
    tree: &Tree,
    verb: Verb,
    path: &Path,
    body: Option<&Tree>,
) -> Result<Tree, EditFault>
    requires tree_sound { IsSound tree.now }
    requires body_sound { ForSome (option_copied body) IsSound }
    ensures exact { Gives EditFault.NoMemory result
        (edit_of tree.now verb path.now (option_copied body.entry)) }
    ensures sound { IfOk result IsSound }
    ensures others { IfOk result (LeavesOthers path.now tree.now) }
{
    let parts = path.parts.as_slice();
    if has_last_ellipsis(parts) && verb != Verb::Post {
        return Err(EditFault::EllipsisVerb);
    }
    match body {
        Some(body) => Task { alloc, verb, body }.limited(parts, tree),
        None if verb == Verb::Delete => {
            let body = &Tree::Null;
            Task { alloc, verb, body }.limited(parts, tree)
        }
        None => Err(EditFault::BodyMissing),
    }
}

/// What an edit does at its path: the verb, with its body.
#[derive(Drop)]
struct Task<'a> {
    alloc: Global,
    verb: Verb,
    body: &'a Tree,
}

impl<'a> Task<'a> {
    /// The tree with the edit at the parts made, unless it is too deep or too long.
    fn limited(&self, parts: &[Text], tree: &Tree) -> Result<Tree, EditFault>
        requires tree_ordered { IsTrue (is_ordered tree.now) }
        requires body_ordered { IsTrue (is_ordered self.now.body.now) }
        ensures exact { Gives EditFault.NoMemory result
            (change_of self.now.verb self.now.body.now parts.now tree.now ▷ within_limits) }
        ensures sound { IfOk result IsSound }
    {
        if self.verb == Verb::Put && puts_too_deep(self.alloc, tree, parts)? {
            return Err(EditFault::ResultTooDeep);
        }
        let made = self.ordered(parts, tree)?;
        limited(made)
    }

    /// The edit of a tree in which keys rise and numbers are in range, as they are in the result.
    fn ordered(&self, parts: &[Text], tree: &Tree) -> Result<Tree, EditFault>
        requires tree_ordered { IsTrue (is_ordered tree.now) }
        requires body_ordered { IsTrue (is_ordered self.now.body.now) }
        ensures exact { Gives EditFault.NoMemory result
            (change_of self.now.verb self.now.body.now parts.now tree.now) }
        ensures ordered { IfOk result (λ made. IsTrue (is_ordered made)) }
    {
        self.change(parts, tree)
    }

    /// The tree with the edit at the parts made, whatever its size.
    fn change(&self, parts: &[Text], tree: &Tree) -> Result<Tree, EditFault>
        ensures { Gives EditFault.NoMemory result
            (change_of self.now.verb self.now.body.now parts.now tree.now) }
    {
        let (alloc, verb, body) = (self.alloc, self.verb, self.body);
        let (part, rest) = match parts {
            [] => return edit_root(alloc, verb, body, tree),
            [part] if part.equals("...") => return post_all(alloc, body, tree),
            [part] => return edit_last(alloc, verb, body, part, tree),
            [part, rest @ ..] => (part, rest),
        };
        match tree {
            Tree::Object(members) => {
                let (null, empty) = (
                    Tree::Null,
                    Tree::Object(Shared::new(alloc, List::new(alloc))?),
                );
                let old = enter(verb, member_of(members, part), &null, &empty);
                let made = self.change(rest, old)?;
                let made = set_member(alloc, members, part, Some(made))?;
                Ok(Tree::Object(Shared::new(alloc, made)?))
            }
            Tree::Items(items) => {
                let at = place_of(items.len(), part.as_str())?;
                let made = self.change(rest, &items.as_slice()[at])?;
                let made = with_replaced(alloc, items, at, made)?;
                Ok(Tree::Items(Shared::new(alloc, made)?))
            }
            _ => Err(EditFault::NotTraversable),
        }
    }
}

/// The value of a key on the way: absent counts as null, and PUT takes an empty object for null.
fn enter<'a>(verb: Verb, value: Option<&'a Tree>, null: &'a Tree, empty: &'a Tree) -> &'a Tree
    requires null { null.now ≡ Null }
    requires empty { empty.now ≡ Object [] }
    ensures { result.now ≡ entered verb (option_copied value.entry) }
{
    match (verb, value) {
        (Verb::Put, None | Some(Tree::Null)) => empty,
        (_, None) => null,
        (_, Some(value)) => value,
    }
}

/// The tree, unless it is too deep or too long.
fn limited(tree: Tree) -> Result<Tree, EditFault>
    requires { IsTrue (is_ordered tree) }
    ensures exact { result ≡ within_limits tree }
    ensures sound { IfOk result IsSound }
{
    if nesting(&tree) > MAX_DEPTH {
        return Err(EditFault::ResultTooDeep);
    }
    if text_length(&tree) > MAX_TEXT_BYTES {
        return Err(EditFault::ResultTooLong);
    }
    Ok(tree)
}
