//! The matcher `vars`.
ghost use Rattle.std.specs.Prelude.{◌≡◌, IfOk};
ghost use Rattle.cd_fill.specs.Filling.{fill};
ghost use Rattle.cd_match.specs.Vars.{variable_test, vars_matcher, is_among, value_of_key, variable_passes, vars_hold};

use crate::is_listed;
use cd_fill::{FillFault, Scene, fill, value_of_variable};
use cd_module::{LoadFault, Named, Settings, object_by_name};
use cd_text::{List, NoMemory, Text};
use cd_tree::{Place, Tree};
use std::alloc::Global;

/// What a variable is to be.
#[derive(Debug, Drop)]
pub struct VariableTest {
    /// The name of a variable, or a text to be filled where it begins with `{`.
    pub key: Text,
    /// The values that pass, which are not filled.
    pub values: List<Text>,
}

/// Holds where each variable has one of the values that are listed for it. A variable that is not set is empty.
#[derive(Debug, Drop)]
pub struct VarsMatcher {
    pub tests: List<VariableTest>,
}

impl Named for VariableTest {
    ghost named = { variable_test };

    #[tactic(auto, unfolding(crate::specs::Vars::variable_test))]
    fn read_named(
        alloc: Global,
        name: &Text,
        tree: &Tree,
        at: &Place<'_>,
    ) -> Result<VariableTest, LoadFault> {
        let values = List::<Text>::read(alloc, tree, at)?;
        Ok(VariableTest {
            key: name.copy(alloc)?,
            values,
        })
    }
}

impl Settings for VarsMatcher {
    ghost reader = { vars_matcher };

    #[tactic(auto, unfolding(crate::specs::Vars::vars_matcher))]
    fn read(alloc: Global, tree: &Tree, at: &Place<'_>) -> Result<VarsMatcher, LoadFault> {
        let tests = object_by_name::<VariableTest>(alloc, tree, at)?;
        Ok(VarsMatcher { tests })
    }
}

// Whether the filled key is listed.
fn filled_passes(alloc: Global, scene: &Scene<'_>, test: &VariableTest) -> Result<bool, NoMemory>
    ensures { IfOk result (λ passes. passes ≡ is_among (test.now).values (fill scene.now (test.now).key)) }
{
    match fill(alloc, &test.key, scene) {
        Ok(value) => Ok(is_listed(test.values.as_slice(), value.as_slice())),
        Err(FillFault::TooLong) => Ok(false),
        Err(FillFault::NoMemory) => Err(NoMemory),
    }
}

#[tactic(auto, unfolding(crate::specs::Vars::variable_passes))]
fn variable_passes(alloc: Global, scene: &Scene<'_>, test: &VariableTest) -> Result<bool, NoMemory>
    ensures { IfOk result (λ passes. passes ≡ variable_passes scene.now test.now) }
{
    let key = test.key.as_str().as_bytes();
    if key.starts_with(b"{") {
        filled_passes(alloc, scene, test)
    } else {
        let value = value_of_variable(scene.variables.as_slice(), key);
        Ok(is_listed(test.values.as_slice(), value))
    }
}

impl VarsMatcher {
    /// Whether it holds. It takes memory for the keys that are filled.
    pub fn holds(&self, alloc: Global, scene: &Scene<'_>) -> Result<bool, NoMemory>
        ensures { IfOk result (λ answer. answer ≡ vars_hold self.now scene.now) }
    {
        for test in self.tests.as_slice() {
            if !variable_passes(alloc, scene, test)? {
                return Ok(false);
            }
        }
        Ok(true)
    }
}
