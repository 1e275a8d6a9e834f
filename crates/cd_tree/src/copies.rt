ghost use Rattle.std.specs.Prelude.{◌≡◌, IfOk};

use crate::tree::{Member, Tree};
use cd_text::NoMemory;
use std::alloc::Global;

/// An equal tree, which shares its text or the values inside with the first. It copies nothing.
pub fn copy(alloc: Global, tree: &Tree) -> Result<Tree, NoMemory>
    ensures { IfOk result (λ made. made ≡ tree.now) }
{
    match tree {
        Tree::Null => Ok(Tree::Null),
        Tree::Bool(value) => Ok(Tree::Bool(*value)),
        Tree::Num(number) => Ok(Tree::Num(*number)),
        Tree::Text(text) => Ok(Tree::Text(text.share()?)),
        Tree::Items(items) => Ok(Tree::Items(items.share()?)),
        Tree::Object(members) => Ok(Tree::Object(members.share()?)),
    }
}

/// An equal member, which shares the values inside with the first. Its key is copied.
pub fn copy_member(alloc: Global, member: &Member) -> Result<Member, NoMemory>
    ensures { IfOk result (λ made. made ≡ member.now) }
{
    let key = member.key.copy(alloc)?;
    let value = copy(alloc, &member.value)?;
    Ok(Member { key, value })
}
