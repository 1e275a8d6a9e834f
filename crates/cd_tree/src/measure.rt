ghost use Rattle.std.specs.Prelude.{◌≡◌, ◌-◌, ◌^◌, min, map};
ghost use Rattle.cd_tree.specs.Tree.{depth, member_depth, largest};

use crate::shared::Shared;
use crate::tree::{Member, Tree};

/// How many levels lists and objects nest, 0 where the tree is neither, or the largest `usize` where that is more.
#[cycle(nesting)]
pub fn nesting(tree: &Tree) -> usize
    ensures { result ≡ min (depth tree.now) (2 ^ 64 - 1) }
{
    match tree {
        Tree::Null => 0,
        Tree::Bool(_) => 0,
        Tree::Num(_) => 0,
        Tree::Text(_) => 0,
        Tree::Items(items) => items_nesting(items).saturating_add(1),
        Tree::Object(members) => members_nesting(members).saturating_add(1),
    }
}

#[cycle(nesting)]
fn items_nesting(items: &Shared<Tree>) -> usize
    ensures { result ≡ min (largest (map depth items.now)) (2 ^ 64 - 1) }
{
    let mut deepest = 0;
    for item in items.as_slice() {
        deepest = deepest.max(nesting(item));
    }
    deepest
}

#[cycle(nesting)]
fn members_nesting(members: &Shared<Member>) -> usize
    ensures { result ≡ min (largest (map member_depth members.now)) (2 ^ 64 - 1) }
{
    let mut deepest = 0;
    for member in members.as_slice() {
        deepest = deepest.max(nesting(&member.value));
    }
    deepest
}
