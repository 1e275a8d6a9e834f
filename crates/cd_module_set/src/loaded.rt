ghost use Rattle.std.specs.Prelude.{◌≡◌, ◌≤◌, ◌+◌, length, Ok};
ghost use Rattle.cd_tree.specs.Tree.{IsSound};
ghost use Rattle.cd_module.specs.declared.limits.TheConstants.{MAX_MODULES};
ghost use Rattle.cd_module_set.specs.Acts.{DoAlike};

use crate::set::ModuleSet;
use cd_legal::Plan;
use cd_tree::Tree;

/// A configuration that may run: its tree, which the set of modules finds without a fault, what it consists of, and its compiled
/// form.
pub struct Loaded<M: ModuleSet> {
    pub tree: Tree,
    /// Which modules are made, and which apps are started: at most `MAX_MODULES` modules, and one app more.
    pub plan: Plan,
    pub compiled: M::Compiled,
    pub ghost sound: { IsSound tree },
    pub ghost planned: { M.plan tree ≡ Ok plan },
    pub ghost modules: { length plan.modules ≤ MAX_MODULES },
    pub ghost apps: { length plan.apps ≤ MAX_MODULES + 1 },
    pub ghost acts: { DoAlike (M.form compiled) (M.acts tree) },
}

impl<M: ModuleSet> Drop for Loaded<M> {
    fn drop(self) {
        let Loaded {
            tree: _,
            plan: _,
            compiled: _,
        } = self;
    }
}
