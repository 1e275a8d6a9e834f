//! Trees of few parts.
ghost use Rattle.std.specs.Prelude.{◌≡◌, IfOk};
ghost use Rattle.cd_tree.specs.declared.tree.Tree.TheVariants as tree;
ghost use Rattle.cd_storm.specs.FirstTree.{member, single, double, list_of};

use cd_text::{List, NoMemory, Text};
use cd_tree::{Member, Shared, SharedText, Tree};
use std::alloc::Global;

/// A text.
pub fn text(alloc: Global, words: &str) -> Result<Tree, NoMemory>
    ensures { IfOk result (λ made. made ≡ tree.Text words.now) }
{
    Ok(Tree::Text(SharedText::from_str(alloc, words)?))
}

/// A list with one element.
pub fn list_of(alloc: Global, item: Tree) -> Result<Tree, NoMemory>
    ensures { IfOk result (λ made. made ≡ list_of item) }
{
    let mut items = List::new(alloc);
    items.push(item)?;
    Ok(Tree::Items(Shared::new(alloc, items)?))
}

/// An object with one member.
pub fn single(alloc: Global, key: &str, value: Tree) -> Result<Tree, NoMemory>
    ensures { IfOk result (λ made. made ≡ single key.now value) }
{
    let mut members = List::new(alloc);
    members.push(member(alloc, key, value)?)?;
    Ok(Tree::Object(Shared::new(alloc, members)?))
}

/// An object with two members, whose keys are given in rising order.
pub fn double(
    alloc: Global,
    key: &str,
    value: Tree,
    other_key: &str,
    other_value: Tree,
) -> Result<Tree, NoMemory>
    ensures { IfOk result (λ made. made ≡ double key.now value other_key.now other_value) }
{
    let mut members = List::new(alloc);
    members.push(member(alloc, key, value)?)?;
    members.push(member(alloc, other_key, other_value)?)?;
    Ok(Tree::Object(Shared::new(alloc, members)?))
}

fn member(alloc: Global, key: &str, value: Tree) -> Result<Member, NoMemory>
    ensures { IfOk result (λ made. made ≡ member key.now value) }
{
    let key = Text::from_str(alloc, key)?;
    Ok(Member { key, value })
}
