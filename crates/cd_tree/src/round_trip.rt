ghost use Rattle.std.specs.Prelude.{◌≡◌, ◌<◌, ◌^◌, Ok, map, IsTrue};
ghost use Rattle.std.specs.Str.{is_utf8};
ghost use Rattle.cd_text.specs.Steps.{joined};
ghost use Rattle.cd_tree.specs.Reading.{tree_of};
ghost use Rattle.cd_tree.specs.Tree.{IsSound, text, tokens, member_tokens, number_text};
ghost use Rattle.cd_tree.specs.Utf8.{are_text};

use crate::shared::Shared;
use crate::tree::{Member, Num, Tree};

/// The law that the compact text of a sound tree reads as that tree.
///
/// A call changes nothing: it looks once at each value, since a text is known to be UTF-8 where it is seen.
pub fn reads_back(tree: &Tree)
    requires { IsSound tree.now }
    ensures { tree_of (text tree.now) ≡ Ok tree.now }
{
    see(tree);
}

/// The law that two sound trees with one text are equal. A call does nothing.
pub fn one_text_is_of_one_tree(one: &Tree, other: &Tree)
    requires one { IsSound one.now }
    requires other { IsSound other.now }
    ensures { text one.now ≡ text other.now → one.now ≡ other.now }
{}

/// Every key, text and number of the tree is written in UTF-8.
#[cycle(see)]
fn see(tree: &Tree)
    ensures { IsTrue (are_text (tokens tree.now)) }
{
    match tree {
        Tree::Null => {}
        Tree::Bool(_) => {}
        Tree::Num(number) => see_number(number),
        Tree::Text(text) => see_text(text.as_str()),
        Tree::Items(items) => see_items(items),
        Tree::Object(members) => see_members(members),
    }
}

fn see_number(number: &Num)
    ensures { IsTrue (is_utf8 (number_text number.now)) }
{
    see_size(number.size);
}

fn see_size(size: u64)
    ensures { size < 2 ^ 64 }
{
    let _ = size;
}

fn see_text(text: &str)
    ensures { IsTrue (is_utf8 text.now) }
{
    let _ = text;
}

#[cycle(see)]
fn see_items(items: &Shared<Tree>)
    ensures { IsTrue (are_text (joined (map tokens items.now))) }
{
    for item in items.as_slice() {
        see(item);
    }
}

#[cycle(see)]
fn see_members(members: &Shared<Member>)
    ensures { IsTrue (are_text (joined (map member_tokens members.now))) }
{
    for member in members.as_slice() {
        see_text(member.key.as_str());
        see(&member.value);
    }
}
