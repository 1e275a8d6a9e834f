//! The matcher `method`.
ghost use Rattle.std.specs.Prelude.{◌≡◌};
ghost use Rattle.cd_match.specs.Method.{method_matcher, method_holds};

use crate::is_listed;
use cd_fill::Scene;
use cd_module::{LoadFault, Settings};
use cd_text::{List, Text};
use cd_tree::{Place, Tree};
use std::alloc::Global;

/// Holds where the method, as handlers have left it, is listed; case counts (RFC 9110, section 9.1). Without methods it never
/// holds.
#[derive(Debug, Drop)]
pub struct MethodMatcher {
    pub methods: List<Text>,
}

impl Settings for MethodMatcher {
    ghost reader = { method_matcher };

    #[tactic(auto, unfolding(crate::specs::Method::method_matcher))]
    fn read(alloc: Global, tree: &Tree, at: &Place<'_>) -> Result<MethodMatcher, LoadFault> {
        let methods = List::<Text>::read(alloc, tree, at)?;
        Ok(MethodMatcher { methods })
    }
}

impl MethodMatcher {
    /// Whether it holds. It takes no memory.
    pub fn holds(&self, scene: &Scene<'_>) -> bool
        ensures { result ≡ method_holds self.now scene.now }
    {
        is_listed(self.methods.as_slice(), scene.current.method.as_slice())
    }
}
