ghost use Rattle.std.specs.Prelude.{List, ℕ, Result};
ghost use Rattle.cd_text.specs.Gives.{Gives};
ghost use Rattle.std.specs.Prelude.{◌≡◌};
ghost use Rattle.cd_module.specs.Settings.{each_member, object_of, object_with_nulls, is_setting, is_no_id};
ghost use Rattle.cd_module.specs.declared.fault.LoadFault.{LoadFault};
ghost use Rattle.cd_tree.specs.declared.path.Path.{Path};
ghost use Rattle.cd_tree.specs.declared.tree.Tree.{Tree};

use crate::fault::{LoadFault, LoadKind};
use crate::members::is_a_setting;
use cd_text::{List, Text};
use cd_tree::{Member, Place, Shared, Tree};
use std::alloc::Global;

/// Settings that a member of an object by name gives.
pub trait Named: Sized + Drop {
    ghost named: { List ℕ → Tree → Path → Result Self LoadFault };

    /// The settings of the member of this name, whose value is at this place, or the first fault there.
    fn read_named(
        alloc: Global,
        name: &Text,
        tree: &Tree,
        at: &Place<'_>,
    ) -> Result<Self, LoadFault>
        ensures { Gives LoadFault.NoMemory result (named name.now tree.now at.now) };
}

/// Reads an object by name, member by member in their order. A null member counts as absent, and `@id` is none.
pub fn object_by_name<T: Named>(
    alloc: Global,
    tree: &Tree,
    at: &Place<'_>,
) -> Result<List<T>, LoadFault>
    ensures { Gives LoadFault.NoMemory result (object_of T.named tree.now at.now) }
{
    match tree {
        Tree::Object(members) => read_each_member(alloc, members, at),
        _ => Err(LoadFault::at(alloc, LoadKind::WrongKind, at)),
    }
}

fn read_each_member<T: Named>(
    alloc: Global,
    members: &Shared<Member>,
    at: &Place<'_>,
) -> Result<List<T>, LoadFault>
    ensures { Gives LoadFault.NoMemory result (each_member is_setting T.named members.now at.now) }
{
    let mut found = List::new(alloc);
    for member in members.as_slice() {
        if !is_a_setting(member) {
            continue;
        }
        let here = at.member(member.key.as_str());
        found.push(T::read_named(alloc, &member.key, &member.value, &here)?)?;
    }
    Ok(found)
}

/// The same where null has a meaning: a null member is read too, and `@id` alone is none.
pub fn object_by_name_with_nulls<T: Named>(
    alloc: Global,
    tree: &Tree,
    at: &Place<'_>,
) -> Result<List<T>, LoadFault>
    ensures { Gives LoadFault.NoMemory result (object_with_nulls T.named tree.now at.now) }
{
    match tree {
        Tree::Object(members) => read_each_with_nulls(alloc, members, at),
        _ => Err(LoadFault::at(alloc, LoadKind::WrongKind, at)),
    }
}

fn is_no_id(member: &Member) -> bool
    ensures { result ≡ is_no_id member.now }
{
    !member.key.equals("@id")
}

fn read_each_with_nulls<T: Named>(
    alloc: Global,
    members: &Shared<Member>,
    at: &Place<'_>,
) -> Result<List<T>, LoadFault>
    ensures { Gives LoadFault.NoMemory result (each_member is_no_id T.named members.now at.now) }
{
    let mut found = List::new(alloc);
    for member in members.as_slice() {
        if !is_no_id(member) {
            continue;
        }
        let here = at.member(member.key.as_str());
        found.push(T::read_named(alloc, &member.key, &member.value, &here)?)?;
    }
    Ok(found)
}
