//! Matchers, and their sets as trees.
ghost use Rattle.std.specs.Prelude.{◌≡◌, ◌++◌, ◌∷◌, [], map, All, IfOk, IfSome, OnOk, unwrap_or};
ghost use Rattle.cd_caddyfile.specs.Matchers.{with_value, kind_and_args};
ghost use Rattle.cd_caddyfile.specs.Shape.{wanted, set_of, given, text_list};
ghost use Rattle.cd_caddyfile.specs.Sites.{no_tests};
ghost use Rattle.cd_parts.specs.Texts.{AreTexts, IsTextual, TestsAreTexts};
ghost use Rattle.cd_parts.specs.Making.{wanted_entry, and_line, args_after, fields_after, keys_after};
ghost use Rattle.cd_parts.specs.Gathered.{gathered};

use crate::making::{add, as_text, object, text_list};
use crate::names::Names;
use cd_caddyfile::{Entry, Tests, Wanted};
use cd_text::{List, NoMemory, Octets, split_at_byte};
use cd_tree::Tree;
use std::alloc::Global;

/// No tests.
pub fn no_tests(alloc: Global) -> Tests
    ensures { result ≡ no_tests }
{
    Tests {
        path: None,
        method: None,
        host: None,
        header: List::new(alloc),
        query: List::new(alloc),
    }
}

/// Tests whose lines are being read.
#[derive(Drop)]
pub struct Gathered<'a> {
    path: Option<List<Octets>>,
    method: Option<List<Octets>>,
    host: Option<List<Octets>>,
    header: Names<'a>,
    query: Names<'a>,
}

/// No tests yet.
pub fn none_gathered<'a>(alloc: Global) -> Gathered<'a>
    ensures { gathered result ≡ no_tests }
{
    Gathered {
        path: None,
        method: None,
        host: None,
        header: Names::new(alloc),
        query: Names::new(alloc),
    }
}

/// The tests, once all lines are read.
pub fn tests_of(tests: Gathered<'_>) -> Tests
    ensures { result ≡ gathered tests.entry }
{
    let Gathered {
        path,
        method,
        host,
        header,
        query,
    } = tests;
    Tests {
        path,
        method,
        host,
        header: header.into_list(),
        query: query.into_list(),
    }
}

/// Adds what a line `KIND ARGS` tests, where it is one.
pub fn add_line<'a>(
    alloc: Global,
    tests: &mut Gathered<'a>,
    words: &'a [Octets],
) -> Result<(), NoMemory>
    ensures { OnOk result (gathered tests.new ≡ and_line (gathered tests.old) words.now) }
{
    match words {
        [] => Ok(()),
        [kind, args @ ..] => add_kind(alloc, tests, kind.as_slice(), args),
    }
}

fn add_kind<'a>(
    alloc: Global,
    tests: &mut Gathered<'a>,
    kind: &[u8],
    args: &'a [Octets],
) -> Result<(), NoMemory>
    ensures { OnOk result (gathered tests.new ≡ unwrap_or (kind_and_args (gathered tests.old) kind.now args.now) (gathered tests.old)) }
{
    if kind == b"path".as_slice() {
        return add_args(alloc, &mut tests.path, args);
    }
    if kind == b"method".as_slice() {
        return add_args(alloc, &mut tests.method, args);
    }
    if kind == b"host".as_slice() {
        return add_args(alloc, &mut tests.host, args);
    }
    if kind == b"header".as_slice() {
        return add_field(alloc, &mut tests.header, args);
    }
    if kind == b"query".as_slice() {
        return add_key(alloc, &mut tests.query, args);
    }
    Ok(())
}

fn add_args(
    alloc: Global,
    before: &mut Option<List<Octets>>,
    args: &[Octets],
) -> Result<(), NoMemory>
    ensures { OnOk result (before.new ≡ args_after before.old args.now) }
{
    if args.is_empty() {
        return Ok(());
    }
    let mut all = match before.take() {
        Some(all) => all,
        None => List::new(alloc),
    };
    add_copies(alloc, &mut all, args)?;
    *before = Some(all);
    Ok(())
}

fn add_copies(alloc: Global, all: &mut List<Octets>, args: &[Octets]) -> Result<(), NoMemory>
    ensures { OnOk result (all.new ≡ all.old ++ args.now) }
{
    for arg in args {
        all.push(arg.copy(alloc)?)?;
    }
    Ok(())
}

fn add_field<'a>(alloc: Global, all: &mut Names<'a>, args: &'a [Octets]) -> Result<(), NoMemory>
    ensures { OnOk result (all.new ≡ fields_after all.old args.now) }
{
    match args {
        [name, value] => add_value(alloc, all, name.as_slice(), value.as_slice()),
        _ => Ok(()),
    }
}

fn add_key<'a>(alloc: Global, all: &mut Names<'a>, args: &'a [Octets]) -> Result<(), NoMemory>
    ensures { OnOk result (all.new ≡ keys_after all.old args.now) }
{
    match args {
        [pair] => add_pair(alloc, all, pair.as_slice()),
        _ => Ok(()),
    }
}

#[tactic(auto, using(crate::proofs::SetSteps::pair_with, crate::proofs::SetSteps::pair_without))]
fn add_pair<'a>(alloc: Global, all: &mut Names<'a>, pair: &'a [u8]) -> Result<(), NoMemory>
    ensures { OnOk result (all.new ≡ keys_after all.old (pair.now ∷ [])) }
{
    match split_at_byte(pair, b'=') {
        Some((name, value)) => add_value(alloc, all, name, value),
        None => Ok(()),
    }
}

// A value more for a name.
fn add_value<'a>(
    alloc: Global,
    all: &mut Names<'a>,
    name: &'a [u8],
    value: &[u8],
) -> Result<(), NoMemory>
    ensures { OnOk result (all.new ≡ with_value name.now value.now all.old) }
{
    all.add(alloc, name, Octets::from_slice(alloc, value)?)
}

/// The set of a matcher.
pub fn set_of(alloc: Global, tests: &Tests) -> Result<Tree, NoMemory>
    requires { TestsAreTexts tests.now }
    ensures { IfOk result (λ made. made ≡ set_of tests.now) }
{
    let mut entries = List::new(alloc);
    add_texts(alloc, &mut entries, "path", &tests.path)?;
    add_texts(alloc, &mut entries, "method", &tests.method)?;
    add_texts(alloc, &mut entries, "host", &tests.host)?;
    add_wanted(alloc, &mut entries, "header", tests.header.as_slice())?;
    add_wanted(alloc, &mut entries, "query", tests.query.as_slice())?;
    object(alloc, entries)
}

fn add_texts(
    alloc: Global,
    entries: &mut List<Entry>,
    key: &str,
    texts: &Option<List<Octets>>,
) -> Result<(), NoMemory>
    requires { IfSome texts.now (λ all. AreTexts all) }
    ensures { OnOk result (entries.new ≡ entries.old ++ given key.now text_list texts.now) }
{
    match texts {
        None => Ok(()),
        Some(texts) => {
            let list = text_list(alloc, texts.as_slice())?;
            add(alloc, entries, key, list)
        }
    }
}

fn add_wanted(
    alloc: Global,
    entries: &mut List<Entry>,
    key: &str,
    all: &[Wanted],
) -> Result<(), NoMemory>
    requires { All (λ w. IsTextual w) all.now }
    ensures { OnOk result (entries.new ≡ entries.old ++ given key.now (λ v. v) (wanted all.now)) }
{
    if all.is_empty() {
        return Ok(());
    }
    let inside = wanted_entries(alloc, all)?;
    let value = object(alloc, inside)?;
    add(alloc, entries, key, value)
}

fn wanted_entries(alloc: Global, all: &[Wanted]) -> Result<List<Entry>, NoMemory>
    requires { All (λ w. IsTextual w) all.now }
    ensures { IfOk result (λ made. made ≡ map wanted_entry all.now) }
{
    let mut entries = List::new(alloc);
    for one in all {
        let list = text_list(alloc, one.values.as_slice())?;
        add(alloc, &mut entries, as_text(one.name.as_slice()), list)?;
    }
    Ok(entries)
}
