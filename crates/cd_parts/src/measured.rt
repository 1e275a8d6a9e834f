//! Trees with their measures: how long the text is, and how deep it nests. They are counted without a look at what is inside, and
//! a tree that nests too deeply is not kept, so that none is made or dropped that would take many levels of calls.
ghost use Rattle.std.specs.Prelude.{◌≡◌, ◌+◌, ◌-◌, ◌^◌, max, min, length, map, IfOk};
ghost use Rattle.cd_tree.specs.Lengths.{commas};
ghost use Rattle.cd_tree.specs.Tree.{largest, text};
ghost use Rattle.cd_tree.specs.declared.tree.Tree as tree;
ghost use Rattle.cd_parts.specs.Measures.{capped, within_depth, measured, list_of, member_of, part_length, object_of};

use cd_text::{List, NoMemory, Text};
use cd_tree::{MAX_DEPTH, Member, Shared, SharedText, Tree, copy, nesting, text_length};
use std::alloc::Global;

/// A tree with its measures.
#[derive(Drop)]
pub struct Measured {
    /// The tree, or null where it nests more than `cd_tree::MAX_DEPTH` levels.
    pub tree: Tree,
    /// How many bytes the compact text has, or the largest `usize` where that is more.
    pub length: usize,
    /// How many levels lists and objects nest, or the largest `usize` where that is more.
    pub depth: usize,
}

/// A member of an object that is to be.
#[derive(Drop)]
pub struct Part {
    pub key: Text,
    pub value: Measured,
}

/// A tree, measured.
#[tactic(auto, unfolding(crate::specs::Measures::measured))]
pub fn measure(tree: Tree) -> Measured
    ensures { result ≡ measured tree }
{
    let length = text_length(&tree);
    let depth = nesting(&tree);
    Measured {
        tree: within_depth(depth, tree),
        length,
        depth,
    }
}

fn within_depth(depth: usize, tree: Tree) -> Tree
    ensures { result ≡ within_depth depth tree }
{
    if depth <= MAX_DEPTH { tree } else { Tree::Null }
}

/// A second owner of the same tree.
pub fn copied(alloc: Global, one: &Measured) -> Result<Measured, NoMemory>
    ensures { IfOk result (λ made. made ≡ one.now) }
{
    let tree = copy(alloc, &one.tree)?;
    Ok(Measured {
        tree,
        length: one.length,
        depth: one.depth,
    })
}

/// A list of these trees.
#[tactic(auto, unfolding(crate::specs::Measures::list_of))]
pub fn list_of(alloc: Global, items: List<Measured>) -> Result<Measured, NoMemory>
    ensures { IfOk result (λ made. made ≡ list_of items) }
{
    let length = bracketed(items_length(items.as_slice()));
    let depth = deepest_item(items.as_slice()).saturating_add(1);
    let items = Shared::new(alloc, trees_of(alloc, items)?)?;
    Ok(Measured {
        tree: within_depth(depth, Tree::Items(items)),
        length,
        depth,
    })
}

// In brackets, the last has no comma.
fn bracketed(commas: usize) -> usize
    ensures { result ≡ min (1 + max 1 commas) (2 ^ 64 - 1) }
{
    commas.max(1).saturating_add(1)
}

fn items_length(items: &[Measured]) -> usize
    ensures { result ≡ capped (commas (map (λ (m : Measured). m.length) items.now)) }
{
    let mut length = 0usize;
    for item in items {
        length = length.saturating_add(item.length).saturating_add(1);
    }
    length
}

fn deepest_item(items: &[Measured]) -> usize
    ensures { result ≡ capped (largest (map (λ (m : Measured). m.depth) items.now)) }
{
    let mut deepest = 0;
    for item in items {
        deepest = deepest.max(item.depth);
    }
    deepest
}

fn trees_of(alloc: Global, items: List<Measured>) -> Result<List<Tree>, NoMemory>
    ensures { IfOk result (λ trees. trees ≡ map (λ (m : Measured). m.tree) items) }
{
    let mut trees = List::new(alloc);
    for item in items.into_vec() {
        let Measured {
            tree,
            length: _,
            depth: _,
        } = item;
        trees.push(tree)?;
    }
    Ok(trees)
}

/// An object of these members, whose keys rise.
#[tactic(auto, unfolding(crate::specs::Measures::object_of))]
pub fn object_of(alloc: Global, parts: List<Part>) -> Result<Measured, NoMemory>
    ensures { IfOk result (λ made. made ≡ object_of parts) }
{
    let length = bracketed(parts_length(alloc, parts.as_slice())?);
    let depth = deepest_part(parts.as_slice()).saturating_add(1);
    let members = Shared::new(alloc, members_of(alloc, parts)?)?;
    Ok(Measured {
        tree: within_depth(depth, Tree::Object(members)),
        length,
        depth,
    })
}

fn parts_length(alloc: Global, parts: &[Part]) -> Result<usize, NoMemory>
    ensures { IfOk result (λ length. length ≡ capped (commas (map part_length parts.now))) }
{
    let mut length = 0usize;
    for part in parts {
        length = length.saturating_add(key_length(alloc, &part.key)?);
        length = length.saturating_add(part.value.length).saturating_add(2);
    }
    Ok(length)
}

fn key_length(alloc: Global, key: &Text) -> Result<usize, NoMemory>
    ensures { IfOk result (λ found. found ≡ capped (length (text (tree.Text key.now)))) }
{
    let key = Tree::Text(SharedText::from_str(alloc, key.as_str())?);
    Ok(text_length(&key))
}

fn deepest_part(parts: &[Part]) -> usize
    ensures { result ≡ capped (largest (map (λ (part : Part). part.value.depth) parts.now)) }
{
    let mut deepest = 0;
    for part in parts {
        deepest = deepest.max(part.value.depth);
    }
    deepest
}

fn members_of(alloc: Global, parts: List<Part>) -> Result<List<Member>, NoMemory>
    ensures { IfOk result (λ members. members ≡ map member_of parts) }
{
    let mut members = List::new(alloc);
    for part in parts.into_vec() {
        let Part { key, value } = part;
        let Measured {
            tree,
            length: _,
            depth: _,
        } = value;
        members.push(Member { key, value: tree })?;
    }
    Ok(members)
}
