ghost use Rattle.std.specs.Prelude.{◌≡◌, map, IfOk};
ghost use Rattle.std.specs.Result.{result_map_both};
ghost use Rattle.cd_text.specs.Gives.{Gives};
ghost use Rattle.cd_tree.specs.Tree.{number_text};
ghost use Rattle.cd_ids.specs.Walk.{walk, walk_member, in_elements, in_members, own, claimed};
ghost use Rattle.cd_ids.specs.Noting.{noted};

use crate::fault::IdFault;
use crate::notes::Notes;
use cd_text::{NoMemory, Text, decimal};
use cd_tree::{Fields, Member, Num, Place, Shared, SharedText, Tree};
use std::alloc::Global;

/// Notes what is in a value at a place.
#[cycle(walk)]
pub(crate) fn walk<N: Notes>(
    alloc: Global,
    tree: &Tree,
    at: &Place<'_>,
    notes: &mut N,
) -> Result<(), IdFault>
    ensures { Gives IdFault.NoMemory (result_map_both (λ _. notes.new) (λ fault. fault) result)
        (noted N.with notes.old ((walk tree.now).inside at.now)) }
{
    match tree {
        Tree::Items(items) => walk_items(alloc, items, at, notes),
        Tree::Object(members) => {
            note_own(alloc, members, at, notes)?;
            walk_members(alloc, members, &*at, notes)
        }
        _ => Ok(()),
    }
}

#[cycle(walk)]
fn walk_items<N: Notes>(
    alloc: Global,
    items: &Shared<Tree>,
    at: &Place<'_>,
    notes: &mut N,
) -> Result<(), IdFault>
    ensures { Gives IdFault.NoMemory (result_map_both (λ _. notes.new) (λ fault. fault) result)
        (noted N.with notes.old (in_elements 0 (map walk items.now) at.now)) }
{
    for (place, item) in items.as_slice().iter().enumerate() {
        let here = at.element(place);
        walk(alloc, item, &here, notes)?;
    }
    Ok(())
}

/// The members and the place have one lifetime, since the place of a member borrows from both.
#[cycle(walk)]
fn walk_members<'a, N: Notes>(
    alloc: Global,
    members: &'a Shared<Member>,
    at: &'a Place<'a>,
    notes: &mut N,
) -> Result<(), IdFault>
    ensures { Gives IdFault.NoMemory (result_map_both (λ _. notes.new) (λ fault. fault) result)
        (noted N.with notes.old (in_members (map walk_member members.now) at.now)) }
{
    for member in members.as_slice() {
        if member.key.equals("@id") {
            continue;
        }
        let here = at.member(member.key.as_str());
        walk(alloc, &member.value, &here, notes)?;
    }
    Ok(())
}

/// Notes the id of an object.
fn note_own<N: Notes>(
    alloc: Global,
    members: &Shared<Member>,
    at: &Place<'_>,
    notes: &mut N,
) -> Result<(), IdFault>
    ensures { Gives IdFault.NoMemory (result_map_both (λ _. notes.new) (λ fault. fault) result)
        (noted N.with notes.old (own (map walk_member members.now) at.now)) }
{
    match Fields::of_any(members).get("@id") {
        None => Ok(()),
        Some(value) => note_claim(alloc, value, at, notes),
    }
}

/// Notes what the `@id` of an object says.
fn note_claim<N: Notes>(
    alloc: Global,
    value: &Tree,
    at: &Place<'_>,
    notes: &mut N,
) -> Result<(), IdFault>
    ensures { Gives IdFault.NoMemory (result_map_both (λ _. notes.new) (λ fault. fault) result)
        (noted N.with notes.old (claimed (walk value.now).claim at.now)) }
{
    match value {
        Tree::Null => Ok(()),
        Tree::Num(number) => notes.note(alloc, number_id(alloc, number)?, at),
        Tree::Text(text) => notes.note(alloc, text.share()?, at),
        _ => Err(IdFault::BadKind(at.member("@id").to_path(alloc)?)),
    }
}

/// The id that a whole number is.
fn number_id(alloc: Global, number: &Num) -> Result<SharedText, NoMemory>
    ensures { IfOk result (λ made. made ≡ number_text number.now) }
{
    let text = number_text(alloc, number)?;
    SharedText::new(alloc, text)
}

/// The decimal text of a whole number.
fn number_text(alloc: Global, number: &Num) -> Result<Text, NoMemory>
    ensures { IfOk result (λ made. made ≡ number_text number.now) }
{
    let size = number.size;
    if number.negative {
        Ok(Text::from_string(format!(in alloc; "-{size}")?))
    } else {
        decimal(alloc, size)
    }
}
