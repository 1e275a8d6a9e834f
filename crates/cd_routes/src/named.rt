//! The named routes of a server, and which names they have.
ghost use Rattle.std.specs.Prelude.{◌≡◌, true, IfOk, IsTrue};
ghost use Rattle.cd_text.specs.Gives.{Gives};
ghost use Rattle.cd_module.specs.Settings.{each_member, is_setting, optional as optional_of};
ghost use Rattle.std.specs.Option.{option_copied};
ghost use Rattle.cd_routes.specs.Invoking.{place_of, route_named, route_names};
ghost use Rattle.cd_routes.specs.Reading.{is_known, known_name, known_names, named_route, named_routes_read, names_or_none};

use crate::name_list::NameList;
use crate::reading::read_route;
use crate::route::Route;
use cd_module::{LoadFault, LoadKind, Named, is_a_setting, object_by_name};
use cd_text::{List, NoMemory, Text};
use cd_tree::{Fields, Member, Place, Shared, Tree};
use std::alloc::Global;

/// A route that handlers invoke by its name (Caddy, JSON Config Structure, `http.servers.named_routes`).
#[derive(Debug, Drop)]
pub struct NamedRoute {
    /// Its name among the named routes of its server.
    pub name: Text,
    pub route: Route,
}

/// The name of a named route that there is.
#[derive(Debug, Drop)]
pub struct KnownName {
    pub name: Text,
}

// Whether a search by halves finds the name, as it does where the names rise.
fn is_found(known: &[KnownName], name: &Text) -> bool
    ensures { IsTrue result → is_known known.now name.now ≡ true }
{
    match known.binary_search_by(|one| one.name.cmp(name)) {
        Ok(place) => name.equals(known[place].name.as_str()),
        Err(_) => false,
    }
}

/// Whether there is a named route of that name. The names of an object rise, so all of them are looked at only for a name that
/// is none of them, and reading ends there.
pub fn is_known(known: &[KnownName], name: &Text) -> bool
    ensures { result ≡ is_known known.now name.now }
{
    if is_found(known, name) {
        return true;
    }
    known.iter().any(|one| name.equals(one.name.as_str()))
}

impl Named for KnownName {
    ghost named = { known_name };

    fn read_named(
        alloc: Global,
        name: &Text,
        _tree: &Tree,
        _at: &Place<'_>,
    ) -> Result<KnownName, LoadFault> {
        Ok(KnownName {
            name: name.copy(alloc)?,
        })
    }
}

/// The names of a server's `named_routes`; none, where it is no object.
#[tactic(auto, unfolding(crate::specs::Reading::known_names, cd_module::specs::Settings::optional))]
pub fn known_names(
    alloc: Global,
    fields: &Fields<'_>,
    at: &Place<'_>,
) -> Result<List<KnownName>, NoMemory>
    ensures { IfOk result (λ known. known ≡ known_names fields.now.members.now at.now) }
{
    match fields.get("named_routes") {
        None => Ok(List::new(alloc)),
        Some(tree) => {
            match object_by_name::<KnownName>(alloc, tree, &at.member("named_routes")) {
                Ok(known) => Ok(known),
                Err(LoadFault::Refused(_)) => Ok(List::new(alloc)),
                Err(LoadFault::NoMemory) => Err(NoMemory),
            }
        }
    }
}

#[tactic(auto, unfolding(crate::specs::Reading::named_route))]
fn read_named_route(
    alloc: Global,
    known: &[KnownName],
    name: &Text,
    tree: &Tree,
    at: &Place<'_>,
) -> Result<NamedRoute, LoadFault>
    ensures { Gives LoadFault.NoMemory result (named_route known.now name.now tree.now at.now) }
{
    let route = read_route(alloc, known, tree, at)?;
    Ok(NamedRoute {
        name: name.copy(alloc)?,
        route,
    })
}

fn read_each_named(
    alloc: Global,
    known: &[KnownName],
    members: &Shared<Member>,
    at: &Place<'_>,
) -> Result<List<NamedRoute>, LoadFault>
    ensures { Gives LoadFault.NoMemory result (each_member is_setting (named_route known.now) members.now at.now) }
{
    let mut found = List::new(alloc);
    for member in members.as_slice() {
        if !is_a_setting(member) {
            continue;
        }
        let here = at.member(member.key.as_str());
        found.push(read_named_route(alloc, known, &member.key, &member.value, &here)?)?;
    }
    Ok(found)
}

fn read_named_routes(
    alloc: Global,
    known: &[KnownName],
    tree: &Tree,
    at: &Place<'_>,
) -> Result<List<NamedRoute>, LoadFault>
    ensures { Gives LoadFault.NoMemory result (named_routes_read known.now tree.now at.now) }
{
    match tree {
        Tree::Object(members) => read_each_named(alloc, known, members, at),
        _ => Err(LoadFault::at(alloc, LoadKind::WrongKind, at)),
    }
}

/// The named routes that a member has, where it is neither absent nor null.
#[tactic(auto, unfolding(cd_module::specs::Settings::optional))]
pub fn read_named_member(
    alloc: Global,
    known: &[KnownName],
    fields: &Fields<'_>,
    at: &Place<'_>,
    name: &str,
) -> Result<Option<List<NamedRoute>>, LoadFault>
    ensures { Gives LoadFault.NoMemory result (optional_of (named_routes_read known.now) name.now fields.now.members.now at.now) }
{
    match fields.get(name) {
        None => Ok(None),
        Some(tree) => Ok(Some(read_named_routes(alloc, known, tree, &at.member(name))?)),
    }
}

// The place of a name among those of named routes; their number, where it is none of them. It takes no memory.
fn place_of(named: &[NamedRoute], name: &Text) -> usize
    ensures { result ≡ place_of (route_names named.now) name.now }
{
    for (place, one) in named.iter().enumerate() {
        if name.equals(one.name.as_str()) {
            return place;
        }
    }
    named.len()
}

/// The names of named routes.
pub fn names_of(alloc: Global, named: &[NamedRoute]) -> Result<NameList, NoMemory>
    ensures { IfOk result (λ names. names ≡ route_names named.now) }
{
    let mut names = List::new(alloc);
    for one in named {
        names.push(one.name.copy(alloc)?)?;
    }
    Ok(NameList::new(names))
}

/// The named route of a name. It takes no memory.
pub fn route_named<'a>(named: &'a [NamedRoute], name: &Text) -> Option<&'a NamedRoute>
    ensures { option_copied result ≡ route_named named.now name.now }
{
    named.get(place_of(named, name))
}
