ghost use Rattle.std.specs.Prelude.{◌≡◌, map};
ghost use Rattle.std.specs.List.{list_all};
ghost use Rattle.cd_tree.specs.Marked.{is_marked, is_whole, member_whole};

use crate::shared::Shared;
use crate::tree::{Member, Num, Tree};

/// Whether no number is marked.
#[cycle(whole)]
pub(crate) fn is_whole(tree: &Tree) -> bool
    ensures { result ≡ is_whole tree.now }
{
    match tree {
        Tree::Null => true,
        Tree::Bool(_) => true,
        Tree::Num(number) => !is_marked(number),
        Tree::Text(_) => true,
        Tree::Items(items) => are_whole_items(items),
        Tree::Object(members) => are_whole_members(members),
    }
}

#[cycle(whole)]
fn are_whole_items(items: &Shared<Tree>) -> bool
    ensures { result ≡ list_all (λ b. b) (map is_whole items.now) }
{
    for item in items.as_slice() {
        if !is_whole(item) {
            return false;
        }
    }
    true
}

#[cycle(whole)]
fn are_whole_members(members: &Shared<Member>) -> bool
    ensures { result ≡ list_all (λ b. b) (map member_whole members.now) }
{
    for member in members.as_slice() {
        if !is_whole(&member.value) {
            return false;
        }
    }
    true
}

fn is_marked(number: &Num) -> bool
    ensures { result ≡ is_marked number.now }
{
    number.negative && number.size == 0
}
