//! What a draft tells of itself.
ghost use Rattle.std.specs.Prelude.{◌≡◌, ◌-◌};

use crate::board::Draft;
use cd_module_set::ModuleSet;

impl<M: ModuleSet> Draft<M> {
    /// Its number.
    pub fn number(&self) -> u64
        ensures { result ≡ self.now.left.number }
    {
        self.left.number
    }

    /// How many of its instances are left to be made.
    pub fn modules_left(&self) -> u32
        ensures { result ≡ self.now.left.modules - self.now.left.made }
    {
        self.left.modules.saturating_sub(self.left.made)
    }

    /// How many of its apps are left to be started.
    pub fn apps_left(&self) -> u32
        ensures { result ≡ self.now.left.apps - self.now.left.started }
    {
        self.left.apps.saturating_sub(self.left.started)
    }

    /// Whether a key of it could not be opened.
    pub fn failed(&self) -> bool
        ensures { result ≡ self.now.left.failed }
    {
        self.left.failed
    }
}
