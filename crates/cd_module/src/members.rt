ghost use Rattle.std.specs.Prelude.{◌≡◌};
ghost use Rattle.std.specs.Result.{result_map_both};
ghost use Rattle.cd_text.specs.Gives.{Gives};
ghost use Rattle.cd_module.specs.Settings.{members, optional as optional_of, needed as needed_of, is_setting, name_of as name_there};

use crate::fault::{LoadFault, LoadKind};
use crate::settings::Settings;
use cd_text::Text;
use cd_tree::{Fields, Member, Place, Tree};
use std::alloc::Global;

/// The members of an object that has no others than these, whose names single spaces join, and `@id`.
#[tactic(auto, unfolding(crate::specs::Settings::members))]
pub fn fields_of<'a>(
    alloc: Global,
    tree: &'a Tree,
    at: &Place<'_>,
    names: &str,
) -> Result<Fields<'a>, LoadFault>
    ensures { Gives LoadFault.NoMemory (result_map_both (λ fields. fields.members.now) (λ fault. fault) result)
        (members names.now tree.now at.now) }
{
    match Fields::over(alloc, tree, at, names) {
        Ok(fields) => Ok(fields),
        Err(fault) => Err(LoadFault::of_field(alloc, fault)),
    }
}

/// What a member says, where it is neither absent nor null.
#[tactic(auto, unfolding(crate::specs::Settings::optional))]
pub fn optional<T: Settings>(
    alloc: Global,
    fields: &Fields<'_>,
    at: &Place<'_>,
    name: &str,
) -> Result<Option<T>, LoadFault>
    ensures { Gives LoadFault.NoMemory result (optional_of T.reader name.now fields.now.members.now at.now) }
{
    match fields.get(name) {
        None => Ok(None),
        Some(tree) => {
            let here = at.member(name);
            Ok(Some(T::read(alloc, tree, &here)?))
        }
    }
}

/// What a member says, and Missing where it is absent or null.
#[tactic(auto, unfolding(crate::specs::Settings::needed))]
pub fn needed<T: Settings>(
    alloc: Global,
    fields: &Fields<'_>,
    at: &Place<'_>,
    name: &str,
) -> Result<T, LoadFault>
    ensures { Gives LoadFault.NoMemory result (needed_of T.reader name.now fields.now.members.now at.now) }
{
    match fields.need(alloc, at, name) {
        Ok(tree) => T::read(alloc, tree, &at.member(name)),
        Err(fault) => Err(LoadFault::of_field(alloc, fault)),
    }
}

/// Whether a member of an object by name is a setting: it is no `@id` and not null.
pub fn is_a_setting(member: &Member) -> bool
    ensures { result ≡ is_setting member.now }
{
    match &member.value {
        Tree::Null => false,
        _ => !member.key.equals("@id"),
    }
}

/// The text of the member that names a module, which is read before anything else of its object.
#[tactic(auto, unfolding(crate::specs::Settings::name_of))]
pub fn name_of(alloc: Global, tree: &Tree, at: &Place<'_>, member: &str) -> Result<Text, LoadFault>
    ensures { Gives LoadFault.NoMemory result (name_there member.now tree.now at.now) }
{
    match tree {
        Tree::Object(members) => needed::<Text>(alloc, &Fields::of_any(members), at, member),
        _ => Err(LoadFault::at(alloc, LoadKind::WrongKind, at)),
    }
}
