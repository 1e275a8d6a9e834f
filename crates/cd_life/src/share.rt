ghost use Rattle.std.specs.Prelude.{◌≡◌};
ghost use Rattle.cd_tree.specs.declared.tree.Tree.TheVariants as value;
ghost use Rattle.cd_module_set.specs.Acts.{DoAlike, nobody};

use cd_module_set::ModuleSet;
use cd_tree::Tree;

/// The configuration before the first and after the last: the tree null, and a compiled form by which nobody answers.
pub struct Nothing<M: ModuleSet> {
    pub(crate) tree: Tree,
    pub(crate) compiled: M::Compiled,
    ghost null: { tree ≡ value.Null },
    ghost acts: { DoAlike (M.form compiled) nobody },
}

impl<M: ModuleSet> Drop for Nothing<M> {
    fn drop(self) {
        let Nothing {
            tree: _,
            compiled: _,
        } = self;
    }
}
