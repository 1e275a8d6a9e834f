//! Reading a route's `match`.
ghost use Rattle.std.specs.Prelude.{◌≡◌};
ghost use Rattle.cd_text.specs.Gives.{Gives};
ghost use Rattle.cd_module.specs.Settings.{each, each_member, is_setting, list_of};
ghost use Rattle.cd_match.specs.Matchers.{sets, matcher_set, matcher, matcher_of, route_sets};
ghost use Rattle.cd_match.specs.Not.{not_matcher};

use crate::header::HeaderMatcher;
use crate::host::HostMatcher;
use crate::kind::MatcherKind;
use crate::matcher::{Matcher, MatcherSet};
use crate::method::MethodMatcher;
use crate::not::NotMatcher;
use crate::path::PathMatcher;
use crate::query::QueryMatcher;
use crate::sets::Sets;
use crate::vars::VarsMatcher;
use cd_module::{LoadFault, LoadKind, Named, Settings, is_a_setting};
use cd_text::{List, Text};
use cd_tree::{Member, Place, Tree};
use std::alloc::Global;

// A matcher that is known by its name.
#[cycle(sets)]
#[tactic(auto, unfolding(crate::specs::Matchers::matcher_of))]
fn read_kind(
    alloc: Global,
    kind: MatcherKind,
    tree: &Tree,
    at: &Place<'_>,
) -> Result<Matcher, LoadFault>
    ensures { Gives LoadFault.NoMemory result (matcher_of sets kind tree.now at.now) }
{
    match kind {
        MatcherKind::Host => Ok(Matcher::Host(HostMatcher::read(alloc, tree, at)?)),
        MatcherKind::Path => Ok(Matcher::Path(PathMatcher::read(alloc, tree, at)?)),
        MatcherKind::Method => Ok(Matcher::Method(MethodMatcher::read(alloc, tree, at)?)),
        MatcherKind::Header => Ok(Matcher::Header(HeaderMatcher::read(alloc, tree, at)?)),
        MatcherKind::Query => Ok(Matcher::Query(QueryMatcher::read(alloc, tree, at)?)),
        MatcherKind::Vars => Ok(Matcher::Vars(VarsMatcher::read(alloc, tree, at)?)),
        MatcherKind::Not => Ok(Matcher::Not(read_not(alloc, tree, at)?)),
    }
}

/// A `not`, with its sets.
#[cycle(sets)]
#[tactic(auto, unfolding(crate::specs::Not::not_matcher))]
pub(crate) fn read_not(alloc: Global, tree: &Tree, at: &Place<'_>) -> Result<NotMatcher, LoadFault>
    ensures { Gives LoadFault.NoMemory result (not_matcher sets tree.now at.now) }
{
    let sets = read_sets(alloc, tree, at)?;
    Ok(NotMatcher { sets })
}

#[cycle(sets)]
#[tactic(auto, unfolding(crate::specs::Matchers::matcher))]
fn read_matcher(
    alloc: Global,
    name: &Text,
    tree: &Tree,
    at: &Place<'_>,
) -> Result<Matcher, LoadFault>
    ensures { Gives LoadFault.NoMemory result (matcher sets name.now tree.now at.now) }
{
    match MatcherKind::named(name.as_str()) {
        Some(kind) => read_kind(alloc, kind, tree, at),
        None => Err(LoadFault::unknown_module(alloc, "http.matchers.", name.as_str(), at)),
    }
}

#[cycle(sets)]
fn read_matchers(
    alloc: Global,
    members: &[Member],
    at: &Place<'_>,
) -> Result<List<Matcher>, LoadFault>
    ensures { Gives LoadFault.NoMemory result (each_member is_setting (matcher sets) members.now at.now) }
{
    let mut matchers = List::new(alloc);
    for member in members {
        if !is_a_setting(member) {
            continue;
        }
        let here = at.member(member.key.as_str());
        matchers.push(read_matcher(alloc, &member.key, &member.value, &here)?)?;
    }
    Ok(matchers)
}

#[cycle(sets)]
#[tactic(auto, unfolding(crate::specs::Matchers::matcher_set))]
fn read_set(alloc: Global, tree: &Tree, at: &Place<'_>) -> Result<MatcherSet, LoadFault>
    ensures { Gives LoadFault.NoMemory result (matcher_set sets tree.now at.now) }
{
    match tree {
        Tree::Object(members) => {
            let matchers = read_matchers(alloc, members.as_slice(), at)?;
            Ok(MatcherSet { matchers })
        }
        _ => Err(LoadFault::at(alloc, LoadKind::WrongKind, at)),
    }
}

#[cycle(sets)]
fn read_each_set(
    alloc: Global,
    items: &[Tree],
    at: &Place<'_>,
) -> Result<List<MatcherSet>, LoadFault>
    ensures { Gives LoadFault.NoMemory result (each (matcher_set sets) 0 items.now at.now) }
{
    let mut found = List::new(alloc);
    for (place, item) in items.iter().enumerate() {
        let here = at.element(place);
        found.push(read_set(alloc, item, &here)?)?;
    }
    Ok(found)
}

#[cycle(sets)]
fn read_sets(alloc: Global, tree: &Tree, at: &Place<'_>) -> Result<List<MatcherSet>, LoadFault>
    ensures { Gives LoadFault.NoMemory result (list_of (matcher_set sets) tree.now at.now) }
{
    match tree {
        Tree::Items(items) => read_each_set(alloc, items.as_slice(), at),
        _ => Err(LoadFault::at(alloc, LoadKind::WrongKind, at)),
    }
}

impl Named for Matcher {
    ghost named = { matcher sets };

    fn read_named(
        alloc: Global,
        name: &Text,
        tree: &Tree,
        at: &Place<'_>,
    ) -> Result<Matcher, LoadFault> {
        read_matcher(alloc, name, tree, at)
    }
}

impl Settings for Sets {
    ghost reader = { route_sets };

    #[tactic(auto, unfolding(crate::specs::Matchers::route_sets))]
    fn read(alloc: Global, tree: &Tree, at: &Place<'_>) -> Result<Sets, LoadFault> {
        let sets = read_sets(alloc, tree, at)?;
        Ok(Sets { sets })
    }
}
