//! The matcher `header`.
ghost use Rattle.std.specs.Prelude.{◌≡◌, ◌==◌, not, length};
ghost use Rattle.std.specs.List.{list_any};
ghost use Rattle.cd_fill.specs.Values.{header_values};
ghost use Rattle.cd_module.specs.Patterns.{fits};
ghost use Rattle.cd_match.specs.Header.{field_test, header_matcher, some_fits, values_pass, field_passes, header_holds};

use cd_fill::Scene;
use cd_module::{LoadFault, Named, Pattern, Settings, object_by_name_with_nulls};
use cd_text::{List, Text};
use cd_tree::{Place, Tree};
use cd_wire::Fields;
use std::alloc::Global;

/// What the fields of a name are to be.
#[derive(Debug, Drop)]
pub struct FieldTest {
    /// The name, which counts in any case.
    pub name: Text,
    /// `None` wants no field of the name, an empty list wants one, and a longer list wants one whose value fits one of the
    /// patterns, where case counts.
    pub patterns: Option<List<Pattern>>,
}

/// Holds where each field is as it is to be.
#[derive(Debug, Drop)]
pub struct HeaderMatcher {
    pub tests: List<FieldTest>,
}

impl Named for FieldTest {
    ghost named = { field_test };

    #[tactic(auto, unfolding(crate::specs::Header::field_test))]
    fn read_named(
        alloc: Global,
        name: &Text,
        tree: &Tree,
        at: &Place<'_>,
    ) -> Result<FieldTest, LoadFault> {
        let patterns = match tree {
            Tree::Null => None,
            _ => Some(List::<Pattern>::read(alloc, tree, at)?),
        };
        Ok(FieldTest {
            name: name.copy(alloc)?,
            patterns,
        })
    }
}

impl Settings for HeaderMatcher {
    ghost reader = { header_matcher };

    #[tactic(auto, unfolding(crate::specs::Header::header_matcher))]
    fn read(alloc: Global, tree: &Tree, at: &Place<'_>) -> Result<HeaderMatcher, LoadFault> {
        let tests = object_by_name_with_nulls::<FieldTest>(alloc, tree, at)?;
        Ok(HeaderMatcher { tests })
    }
}

// Whether the fields have the name.
#[tactic(auto, unfolding(cd_fill::specs::Values::header_values))]
fn has_field(name: &[u8], fields: Fields<'_>) -> bool
    ensures { result ≡ not (length (header_values name.now fields.entry) == 0) }
{
    for field in fields {
        if field.is_called(name) {
            return true;
        }
    }
    false
}

fn fits_one(patterns: &[Pattern], value: &[u8]) -> bool
    ensures { result ≡ list_any (λ pattern. fits pattern value.now) patterns.now }
{
    patterns.iter().any(|pattern| pattern.fits(value))
}

// Whether a field of the name has a value that fits one of the patterns.
#[tactic(auto, unfolding(cd_fill::specs::Values::header_values))]
fn has_fitting_field(name: &[u8], patterns: &[Pattern], fields: Fields<'_>) -> bool
    ensures { result ≡ some_fits patterns.now (header_values name.now fields.entry) }
{
    for field in fields {
        if field.is_called(name) && fits_one(patterns, field.value.as_slice()) {
            return true;
        }
    }
    false
}

#[tactic(auto, unfolding(crate::specs::Header::field_passes))]
fn field_passes(scene: &Scene<'_>, test: &FieldTest) -> bool
    ensures { result ≡ field_passes scene.now test.now }
{
    let name = test.name.as_str().as_bytes();
    let fields = scene.fields.look();
    match &test.patterns {
        None => !has_field(name, fields),
        Some(patterns) => {
            if patterns.is_empty() {
                has_field(name, fields)
            } else {
                has_fitting_field(name, patterns.as_slice(), fields)
            }
        }
    }
}

impl HeaderMatcher {
    /// Whether it holds. It takes no memory.
    pub fn holds(&self, scene: &Scene<'_>) -> bool
        ensures { result ≡ header_holds self.now scene.now }
    {
        self.tests
            .as_slice()
            .iter()
            .all(|test| field_passes(scene, test))
    }
}
