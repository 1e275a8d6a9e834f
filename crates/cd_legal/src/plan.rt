ghost use Rattle.std.specs.Prelude.{◌≡◌, IfOk};

use crate::keys::copy_keys;
use cd_outside::Key;
use cd_text::{List, NoMemory, Text};
use cd_tree::{SharedText, Spot};
use std::alloc::Global;

/// What a draft consists of: its modules, of which instances are made, and its apps, which are started, each in this order.
#[derive(Drop)]
pub struct Plan {
    pub modules: List<PlanModule>,
    pub apps: List<PlanApp>,
}

/// A module of a plan.
#[derive(Drop)]
pub struct PlanModule {
    /// The dotted id of the module, such as `http.handlers.static_response`.
    pub name: SharedText,
    /// Where it stands in the tree.
    pub at: Spot,
    /// The keys that an instance takes, in this order.
    pub keys: List<Key>,
}

/// An app of a plan.
#[derive(Drop)]
pub struct PlanApp {
    /// The name of the app, such as `http`.
    pub name: Text,
    /// The keys that it takes, in this order.
    pub keys: List<Key>,
}

impl Plan {
    /// A copy.
    pub fn copy(&self, alloc: Global) -> Result<Plan, NoMemory>
        ensures { IfOk result (λ plan. plan ≡ self.now) }
    {
        let mut modules = List::new(alloc);
        for module in self.modules.as_slice() {
            modules.push(module.copy(alloc)?)?;
        }
        let mut apps = List::new(alloc);
        for app in self.apps.as_slice() {
            apps.push(app.copy(alloc)?)?;
        }
        Ok(Plan { modules, apps })
    }
}

impl PlanModule {
    /// A copy. It shares the name, and the texts in the place.
    pub fn copy(&self, alloc: Global) -> Result<PlanModule, NoMemory>
        ensures { IfOk result (λ made. made ≡ self.now) }
    {
        let name = self.name.share()?;
        let at = self.at.copy(alloc)?;
        let keys = copy_keys(alloc, self.keys.as_slice())?;
        Ok(PlanModule { name, at, keys })
    }
}

impl PlanApp {
    /// A copy.
    pub fn copy(&self, alloc: Global) -> Result<PlanApp, NoMemory>
        ensures { IfOk result (λ app. app ≡ self.now) }
    {
        let name = self.name.copy(alloc)?;
        let keys = copy_keys(alloc, self.keys.as_slice())?;
        Ok(PlanApp { name, keys })
    }
}
