//! The sets of matchers.
ghost use Rattle.std.specs.Prelude.{◌≡◌, ◌∷◌, [], map, IfOk, IsUtf8, Some};
ghost use Rattle.cd_caddyfile.specs.Shape.{set_of};
ghost use Rattle.cd_caddyfile.specs.Sites.{no_tests};
ghost use Rattle.cd_parts.specs.Lines.{and_lines, lines_at, set_from};
ghost use Rattle.cd_parts.specs.Matching.{named_set, table_of, set_named, set_by};
ghost use Rattle.cd_parts.specs.Measures.{measured};
ghost use Rattle.cd_parts.specs.Texts.{AreTexts, LinesAreTexts};

use crate::lines::by_matcher;
use crate::measured::{Measured, copied, measure};
use crate::sets::{add_line, no_tests, none_gathered, set_of, tests_of};
use cd_caddyfile::{Choice, Directive, Matchers, Named, TestLine, Tests, choice_of};
use cd_text::{List, NoMemory, Octets};
use std::alloc::Global;
use std::collections::BTreeMap;

/// The set of a matcher, by the line of its site and its name.
#[derive(Drop)]
pub struct NamedSet {
    pub site: u32,
    pub name: Octets,
    pub set: Measured,
}

/// The sets of all matchers, and the one that tests nothing.
#[derive(Drop)]
pub struct SetTable {
    pub sets: List<NamedSet>,
    pub none: Measured,
}

/// The sets of a file's matchers.
#[tactic(auto, using(crate::proofs::TextTests::no_tests_texts))]
pub fn table_of(alloc: Global, matchers: &Matchers) -> Result<SetTable, NoMemory>
    requires { LinesAreTexts matchers.now.tested }
    ensures { IfOk result (λ made. made ≡ table_of matchers.now) }
{
    let sets = named_sets(
        alloc,
        matchers.defined.as_slice(),
        matchers.tested.as_slice(),
    )?;
    let none = measure(set_of(alloc, &no_tests(alloc))?);
    Ok(SetTable { sets, none })
}

fn named_sets(
    alloc: Global,
    defined: &[Named],
    tested: &[TestLine],
) -> Result<List<NamedSet>, NoMemory>
    requires { LinesAreTexts tested.now }
    ensures { IfOk result (λ made. made ≡ map (λ d. named_set tested.now d) defined.now) }
{
    let lines = by_matcher(alloc, tested)?;
    let mut sets = List::new(alloc);
    for matcher in defined {
        sets.push(named_set(alloc, &lines, matcher)?)?;
    }
    Ok(sets)
}

fn named_set(
    alloc: Global,
    lines: &BTreeMap<u32, Vec<&TestLine>>,
    matcher: &Named,
) -> Result<NamedSet, NoMemory>
    requires { LinesAreTexts (lines_at lines.now matcher.now.line) }
    ensures { IfOk result (λ made. made ≡ set_from (lines_at lines.now matcher.now.line) matcher.now) }
{
    let tests = tests_at(alloc, lines, matcher.line)?;
    let set = measure(set_of(alloc, &tests)?);
    let name = matcher.name.copy(alloc)?;
    Ok(NamedSet {
        site: matcher.site,
        name,
        set,
    })
}

fn tests_at(
    alloc: Global,
    lines: &BTreeMap<u32, Vec<&TestLine>>,
    matcher: u32,
) -> Result<Tests, NoMemory>
    ensures { IfOk result (λ made. made ≡ and_lines no_tests (lines_at lines.now matcher)) }
{
    match lines.get(&matcher) {
        Some(lines) => tests_in(alloc, lines.as_slice()),
        None => Ok(no_tests(alloc)),
    }
}

fn tests_in(alloc: Global, lines: &[&TestLine]) -> Result<Tests, NoMemory>
    ensures { IfOk result (λ made. made ≡ and_lines no_tests (map (λ l. l.now) lines.now)) }
{
    let mut tests = none_gathered(alloc);
    for line in lines {
        add_line(alloc, &mut tests, line.words.as_slice())?;
    }
    Ok(tests_of(tests))
}

/// The set that the arguments of a directive choose in a site.
#[tactic(auto, using(crate::proofs::TextTests::first_is_text))]
pub fn set_by(
    alloc: Global,
    table: &SetTable,
    site: u32,
    directive: Directive,
    args: &[Octets],
) -> Result<Option<Measured>, NoMemory>
    requires { AreTexts args.now }
    ensures { IfOk result (λ made. made ≡ set_by (set_named table.now site) directive args.now) }
{
    match args {
        [] => Ok(None),
        [first, ..] => match choice_of(directive, args) {
            Choice::Unmatched => Ok(None),
            Choice::Everything => Ok(None),
            Choice::ByPath => Ok(Some(path_set(alloc, first)?)),
            Choice::ByName => Ok(Some(set_named(alloc, table, site, first.as_slice())?)),
        },
    }
}

#[tactic(auto, using(crate::proofs::TextTests::path_texts))]
fn path_set(alloc: Global, path: &Octets) -> Result<Measured, NoMemory>
    requires { IsUtf8 path.now }
    ensures { IfOk result (λ made. made ≡ measured (set_of (record no_tests { path = Some (path.now ∷ []) }))) }
{
    let mut paths = List::new(alloc);
    paths.push(path.copy(alloc)?)?;
    let tests = Tests {
        path: Some(paths),
        method: None,
        host: None,
        header: List::new(alloc),
        query: List::new(alloc),
    };
    Ok(measure(set_of(alloc, &tests)?))
}

fn set_named(alloc: Global, table: &SetTable, site: u32, name: &[u8]) -> Result<Measured, NoMemory>
    ensures { IfOk result (λ made. made ≡ set_named table.now site name.now) }
{
    for one in table.sets.as_slice() {
        if one.site == site && one.name.equals(name) {
            return copied(alloc, &one.set);
        }
    }
    copied(alloc, &table.none)
}
