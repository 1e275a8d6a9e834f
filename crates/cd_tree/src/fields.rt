ghost use Rattle.std.specs.Prelude.{◌≡◌, ◌==◌, IfOk, IfSome};
ghost use Rattle.std.specs.Option.{option_copied};
ghost use Rattle.std.specs.Result.{result_map_both};
ghost use Rattle.std.specs.List.{list_any, slice_split};
ghost use Rattle.std.specs.Str.{bytes_eq};
ghost use Rattle.cd_text.specs.Gives.{Gives};
ghost use Rattle.cd_tree.specs.Fields.{over, get as get_of, need as need_of, is_named, is_known, unknown, unless_null};
ghost use Rattle.cd_tree.specs.Tree.{IsSound};
ghost use Rattle.cd_tree.specs.declared.tree.Tree.{Object};

use crate::fault::FieldFault;
use crate::place::Place;
use crate::shared::Shared;
use crate::tree::{Member, Tree};
use cd_text::Text;
use std::alloc::Global;

/// The members of an object of settings, where `null` counts as absent.
///
/// A value that is lent from a sound object is sound.
#[derive(Clone, Copy, Drop)]
pub struct Fields<'a> {
    members: &'a Shared<Member>,
}

impl<'a> Fields<'a> {
    /// The members of an object that may have any names.
    pub fn of_any(members: &'a Shared<Member>) -> Fields<'a>
        ensures { result.members.now ≡ members.now }
    {
        Fields { members }
    }

    /// Reads an object whose members have only these names, which single spaces join, or `@id`.
    ///
    /// It answers WrongKind where the value is no object, and UnknownMember for the first other member.
    pub fn over(
        alloc: Global,
        tree: &'a Tree,
        at: &Place<'_>,
        names: &str,
    ) -> Result<Fields<'a>, FieldFault>
        ensures exact { Gives FieldFault.NoMemory
            (result_map_both (λ fields. fields.members.now) (λ fault. fault) result)
            (over names.now tree.now at.now) }
        ensures sound { IsSound tree.now → IfOk result (λ fields. IsSound (Object fields.members.now)) }
    {
        let Tree::Object(members) = tree else {
            return Err(FieldFault::WrongKind(at.to_path(alloc)?));
        };
        match unknown_member(members, names) {
            None => Ok(Fields { members }),
            Some(name) => Err(FieldFault::UnknownMember(at.member(name.as_str()).to_path(alloc)?)),
        }
    }

    /// The member, or `None` where it is absent or null. It takes no memory.
    pub fn get(&self, name: &str) -> Option<&'a Tree>
        ensures exact { option_copied result ≡ get_of name.now self.now.members.now }
        ensures sound { IsSound (Object self.now.members.now) → IfSome (option_copied result) IsSound }
    {
        member_named(self.members, name)
    }

    /// The member, which may be neither absent nor null: then it answers Missing, with the path of the member.
    pub fn need(&self, alloc: Global, at: &Place<'_>, name: &str) -> Result<&'a Tree, FieldFault>
        ensures exact { Gives FieldFault.NoMemory
            (result_map_both (λ tree. tree.now) (λ fault. fault) result)
            (need_of name.now self.now.members.now at.now) }
        ensures sound { IsSound (Object self.now.members.now) → IfOk result (λ tree. IsSound tree.now) }
    {
        match self.get(name) {
            Some(value) => Ok(value),
            None => Err(FieldFault::Missing(at.member(name).to_path(alloc)?)),
        }
    }
}

/// The first member of that name, unless it is null.
fn member_named<'a>(members: &'a Shared<Member>, name: &str) -> Option<&'a Tree>
    ensures { option_copied result ≡ get_of name.now members.now }
{
    for member in members.as_slice() {
        if member.key.equals(name) {
            return present(&member.value);
        }
    }
    None
}

/// The value, unless it is null.
fn present(tree: &Tree) -> Option<&Tree>
    ensures { option_copied result ≡ unless_null tree.now }
{
    match tree {
        Tree::Null => None,
        _ => Some(tree),
    }
}

/// The first member that has none of these names.
fn unknown_member<'a>(members: &'a Shared<Member>, names: &str) -> Option<&'a Text>
    ensures { option_copied result ≡ unknown names.now members.now }
{
    for other in members.as_slice() {
        if !is_known_name(names, other.key.as_str()) {
            return Some(&other.key);
        }
    }
    None
}

/// Whether a member may have this name.
fn is_known_name(names: &str, name: &str) -> bool
    ensures { result ≡ is_known names.now name.now }
{
    name == "@id" || is_one_of(names, name)
}

/// Whether the name is one of those that single spaces join.
fn is_one_of(names: &str, name: &str) -> bool
    ensures { result ≡ is_named names.now name.now }
{
    !names.is_empty() && has_word(names, name)
}

/// The same of names that are not the empty text, which would be one empty name.
fn has_word(names: &str, name: &str) -> bool
    ensures { result ≡ list_any (λ one. bytes_eq one name.now) (slice_split (λ b. b == 32) names.now) }
{
    names.split(' ').any(|one| one == name)
}
