//! The matcher `query`.
ghost use Rattle.std.specs.Prelude.{◌≡◌, ◌==◌, length};
ghost use Rattle.std.specs.List.{list_all};
ghost use Rattle.form_urlencoded.specs.Form.{raw_pairs};
ghost use Rattle.cd_fill.specs.Values.{decoded};
ghost use Rattle.cd_match.specs.Query.{key_test, query_matcher, is_wanted, key_passes, query_holds};

use cd_fill::{Scene, stands_for};
use cd_module::{LoadFault, Named, Settings, object_by_name};
use cd_text::{List, Text};
use cd_tree::{Place, Tree};
use form_urlencoded::raw_pairs;
use std::alloc::Global;

/// What the values of a key of the query are to be.
#[derive(Debug, Drop)]
pub struct KeyTest {
    pub key: Text,
    /// The values that pass; `*` lets each value pass.
    pub values: List<Text>,
}

/// Holds where each key has a value that passes; without keys, where the query has no pairs. Keys and values are decoded as
/// forms are (URL Standard, section 5.1).
#[derive(Debug, Drop)]
pub struct QueryMatcher {
    pub tests: List<KeyTest>,
}

impl Named for KeyTest {
    ghost named = { key_test };

    #[tactic(auto, unfolding(crate::specs::Query::key_test))]
    fn read_named(
        alloc: Global,
        name: &Text,
        tree: &Tree,
        at: &Place<'_>,
    ) -> Result<KeyTest, LoadFault> {
        let values = List::<Text>::read(alloc, tree, at)?;
        Ok(KeyTest {
            key: name.copy(alloc)?,
            values,
        })
    }
}

impl Settings for QueryMatcher {
    ghost reader = { query_matcher };

    #[tactic(auto, unfolding(crate::specs::Query::query_matcher))]
    fn read(alloc: Global, tree: &Tree, at: &Place<'_>) -> Result<QueryMatcher, LoadFault> {
        let tests = object_by_name::<KeyTest>(alloc, tree, at)?;
        Ok(QueryMatcher { tests })
    }
}

// Whether a value passes.
fn is_wanted(listed: &[Text], raw: &[u8]) -> bool
    ensures { result ≡ is_wanted listed.now (decoded raw.now) }
{
    listed.iter().any(|one| one.equals("*") || stands_for(raw, one.as_str().as_bytes()))
}

// Whether the key has a value that passes.
#[tactic(auto, unfolding(crate::specs::Query::key_passes, cd_fill::specs::Values::query_values))]
fn key_passes(query: &[u8], test: &KeyTest) -> bool
    ensures { result ≡ key_passes query.now test.now }
{
    for (name, value) in raw_pairs(query) {
        if stands_for(name, test.key.as_str().as_bytes())
            && is_wanted(test.values.as_slice(), value)
        {
            return true;
        }
    }
    false
}

fn all_pass(query: &[u8], tests: &[KeyTest]) -> bool
    ensures { result ≡ list_all (key_passes query.now) tests.now }
{
    tests.iter().all(|test| key_passes(query, test))
}

fn has_no_pairs(query: &[u8]) -> bool
    ensures { result ≡ (length (raw_pairs query.now) == 0) }
{
    raw_pairs(query).next().is_none()
}

impl QueryMatcher {
    /// Whether it holds. It takes no memory.
    pub fn holds(&self, scene: &Scene<'_>) -> bool
        ensures { result ≡ query_holds self.now scene.now }
    {
        let query = scene.current.query_or_empty();
        if self.tests.is_empty() {
            has_no_pairs(query)
        } else {
            all_pass(query, self.tests.as_slice())
        }
    }
}
