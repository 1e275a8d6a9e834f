ghost use Rattle.std.specs.Prelude.{◌≡◌, ◌∷◌, ◌++◌, [], map, IsTrue, IfOk, OnOk, Ok, IsUtf8};
ghost use Rattle.json.specs.Lex.{tokens as lex_tokens};
ghost use Rattle.std.specs.List.{list_all};
ghost use Rattle.json.specs.Token.{number as number_token};
ghost use Rattle.cd_text.specs.Steps.{joined};
ghost use Rattle.cd_tree.specs.Tree.{IsSound, is_ordered, is_number, ordered_member, are_ordered, text, tokens, member_tokens, number_text};
ghost use Rattle.cd_tree.specs.Reading.{tree_of};

use crate::shared::Shared;
use crate::tree::{Member, Num, Tree};
use cd_text::{NoMemory, Text};
use json::Writer;
use std::alloc::{AllocError, Global};

/// The compact text (RFC 8259): no space, members in their order, the shortest escapes. It reads back as the same tree.
pub fn print(alloc: Global, tree: &Tree) -> Result<Text, NoMemory>
    requires { IsSound tree.now }
    ensures text { IfOk result (λ made. made ≡ text tree.now) }
    ensures reads_back { IfOk result (λ made. tree_of made ≡ Ok tree.now) }
{
    let made = written(alloc, tree)?;
    Ok(made)
}

/// The compact text of a tree that may be too deep or too long, so that the text may not read back.
pub fn print_ordered(alloc: Global, tree: &Tree) -> Result<Text, NoMemory>
    requires { IsTrue (is_ordered tree.now) }
    ensures { IfOk result (λ made. made ≡ text tree.now) }
{
    written(alloc, tree)
}

/// The text, with what its bytes are made of.
fn written(alloc: Global, tree: &Tree) -> Result<Text, NoMemory>
    requires { IsTrue (is_ordered tree.now) }
    ensures text { IfOk result (λ made. made ≡ text tree.now) }
    ensures utf8 { OnOk result (IsUtf8 (text tree.now)) }
    ensures lexed { OnOk result (lex_tokens (text tree.now) ≡ tokens tree.now) }
{
    let mut writer = Writer::new(Vec::new(alloc));
    write(tree, &mut writer)?;
    // That the bytes are UTF-8, which the call requires, is proved.
    let string = unsafe { String::from_utf8_unchecked(writer.into_inner()) };
    Ok(Text::from_string(string))
}

/// Writes a value, one level at a time.
#[cycle(write)]
fn write(tree: &Tree, out: &mut Writer) -> Result<(), AllocError>
    requires { IsTrue (is_ordered tree.now) }
    ensures written { OnOk result (out.new.tokens ≡ out.old.tokens ++ tokens tree.now) }
    ensures before { out.new.before ≡ out.old.before }
{
    match tree {
        Tree::Null => out.null(),
        Tree::Bool(value) => out.boolean(*value),
        Tree::Num(number) => write_number(number, out),
        Tree::Text(text) => out.string(text.as_str()),
        Tree::Items(items) => {
            out.begin_array()?;
            write_items(items, out)?;
            out.end_array()
        }
        Tree::Object(members) => {
            out.begin_object()?;
            write_members(members, out)?;
            out.end_object()
        }
    }
}

fn write_number(num: &Num, out: &mut Writer) -> Result<(), AllocError>
    requires { IsTrue (is_number num.now) }
    ensures written { OnOk result (out.new.tokens
        ≡ out.old.tokens ++ number_token (number_text num.now) ∷ []) }
    ensures before { out.new.before ≡ out.old.before }
{
    if num.negative {
        out.i64((-(num.size as i128)) as i64)
    } else {
        out.u64(num.size)
    }
}

#[cycle(write)]
fn write_items(items: &Shared<Tree>, out: &mut Writer) -> Result<(), AllocError>
    requires { IsTrue (list_all (λ b. b) (map is_ordered items.now)) }
    ensures written { OnOk result (out.new.tokens
        ≡ out.old.tokens ++ joined (map tokens items.now)) }
    ensures before { out.new.before ≡ out.old.before }
{
    for item in items.as_slice() {
        write(item, out)?;
    }
    Ok(())
}

#[cycle(write)]
fn write_members(members: &Shared<Member>, out: &mut Writer) -> Result<(), AllocError>
    requires { IsTrue (are_ordered (map ordered_member members.now)) }
    ensures written { OnOk result (out.new.tokens
        ≡ out.old.tokens ++ joined (map member_tokens members.now)) }
    ensures before { out.new.before ≡ out.old.before }
{
    for member in members.as_slice() {
        out.key(member.key.as_str())?;
        write(&member.value, out)?;
    }
    Ok(())
}
