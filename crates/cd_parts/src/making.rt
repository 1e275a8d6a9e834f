//! Trees from their parts.
ghost use Rattle.std.specs.Prelude.{◌≡◌, ◌++◌, ◌∷◌, [], map, IfOk, OnOk, IsUtf8};
ghost use Rattle.cd_text.specs.ByKey.{by_key};
ghost use Rattle.cd_tree.specs.declared.tree.Tree as tree;
ghost use Rattle.cd_caddyfile.specs.Shape.{Entry as ToBe, member, object, list, text_list};
ghost use Rattle.cd_parts.specs.Making.{rolled};
ghost use Rattle.cd_parts.specs.Texts.{AreTexts};

use cd_caddyfile::Entry;
use cd_text::{List, NoMemory, Octets, Text};
use cd_tree::{Member, Shared, SharedText, Tree};
use std::alloc::Global;

/// An object of these members, by rising keys.
pub fn object(alloc: Global, entries: List<Entry>) -> Result<Tree, NoMemory>
    ensures { IfOk result (λ made. made ≡ object entries) }
{
    let sorted = by_key(entries)?;
    let members = members_of(alloc, sorted)?;
    Ok(Tree::Object(Shared::new(alloc, members)?))
}

fn by_key(entries: List<Entry>) -> Result<List<Entry>, NoMemory>
    ensures { IfOk result (λ sorted. sorted ≡ by_key (λ (e : ToBe). e.key) entries) }
{
    let mut sorted = entries.into_vec();
    sorted.sort_by(|one, other| one.key.cmp(&other.key))?;
    Ok(List::from_vec(sorted))
}

fn members_of(alloc: Global, entries: List<Entry>) -> Result<List<Member>, NoMemory>
    ensures { IfOk result (λ members. members ≡ map rolled entries) }
{
    let mut members = List::new(alloc);
    for entry in entries.into_vec() {
        let Entry { key, value } = entry;
        members.push(Member { key, value })?;
    }
    Ok(members)
}

/// An object of one member.
pub fn object_with(alloc: Global, key: &str, value: Tree) -> Result<Tree, NoMemory>
    ensures { IfOk result (λ made. made ≡ object (member key.now value ∷ [])) }
{
    let mut entries = List::new(alloc);
    add(alloc, &mut entries, key, value)?;
    object(alloc, entries)
}

/// Adds a member.
pub fn add(alloc: Global, entries: &mut List<Entry>, key: &str, value: Tree) -> Result<(), NoMemory>
    ensures { OnOk result (entries.new ≡ entries.old ++ member key.now value ∷ []) }
{
    let key = Text::from_str(alloc, key)?;
    entries.push(Entry { key, value })
}

/// A list of one tree.
pub fn list_with(alloc: Global, item: Tree) -> Result<Tree, NoMemory>
    ensures { IfOk result (λ made. made ≡ list (item ∷ [])) }
{
    let mut items = List::new(alloc);
    items.push(item)?;
    Ok(Tree::Items(Shared::new(alloc, items)?))
}

/// A list of texts.
pub fn text_list(alloc: Global, texts: &[Octets]) -> Result<Tree, NoMemory>
    requires { AreTexts texts.now }
    ensures { IfOk result (λ made. made ≡ text_list texts.now) }
{
    let mut items = List::new(alloc);
    for text in texts {
        items.push(text_tree(alloc, as_text(text.as_slice()))?)?;
    }
    Ok(Tree::Items(Shared::new(alloc, items)?))
}

/// A list of one text.
pub fn one_text(alloc: Global, text: &str) -> Result<Tree, NoMemory>
    ensures { IfOk result (λ made. made ≡ text_list (text.now ∷ [])) }
{
    list_with(alloc, text_tree(alloc, text)?)
}

/// A text.
pub fn text_tree(alloc: Global, text: &str) -> Result<Tree, NoMemory>
    ensures { IfOk result (λ made. made ≡ tree.Text text.now) }
{
    Ok(Tree::Text(SharedText::from_str(alloc, text)?))
}

/// A word as the text that it is.
pub fn as_text(word: &[u8]) -> &str
    requires { IsUtf8 word.now }
    ensures { result.now ≡ word.now }
{
    match str::from_utf8(word) {
        Ok(text) => text,
        Err(_) => unreachable!(),
    }
}
