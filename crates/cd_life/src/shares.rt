ghost use Rattle.std.specs.Prelude.{◌≡◌};
ghost use Rattle.cd_life.specs.Shares.{tree_in, compiled_in};

use crate::share::Nothing;
use cd_module_set::{Loaded, ModuleSet};
use cd_tree::Tree;
use std::sync::Arc;

/// One shared configuration. Its variant says which one it is, and the type in it that its compiled form does what that says.
pub enum Share<M: ModuleSet> {
    /// Before the first: the tree null, and nobody answers.
    Opening(Arc<Nothing<M>>),
    /// After the last: the same.
    Halted(Arc<Nothing<M>>),
    /// One that was published.
    Running(Arc<Loaded<M>>),
}

impl<M: ModuleSet> Share<M> {
    /// Its tree.
    pub fn tree(&self) -> &Tree
        ensures { result.now ≡ tree_in self.now }
    {
        match self {
            Share::Opening(nothing) => &nothing.tree,
            Share::Halted(nothing) => &nothing.tree,
            Share::Running(loaded) => &loaded.tree,
        }
    }

    /// Its compiled form.
    pub fn compiled(&self) -> &M::Compiled
        ensures { result.now ≡ compiled_in self.now }
    {
        match self {
            Share::Opening(nothing) => &nothing.compiled,
            Share::Halted(nothing) => &nothing.compiled,
            Share::Running(loaded) => &loaded.compiled,
        }
    }
}

impl<M: ModuleSet> Drop for Share<M> {
    fn drop(self) {
        match self {
            Share::Opening(nothing) => drop(nothing),
            Share::Halted(nothing) => drop(nothing),
            Share::Running(loaded) => drop(loaded),
        }
    }
}
