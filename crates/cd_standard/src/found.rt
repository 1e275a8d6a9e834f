//! The modules that were found so far, and what they share.
ghost use Rattle.std.specs.Prelude.{◌≡◌, ◌∷◌, ◌++◌, [], IsTrue, IfOk, OnOk};
ghost use Rattle.cd_standard.specs.Walking.{module_kind};

use crate::words::Words;
use cd_legal::PlanModule;
use cd_text::{List, NoMemory, Text};
use cd_tree::SharedText;
use std::alloc::Global;
use std::marker::Model;

/// The id of a module, in its namespace, which ends in a dot.
pub fn module_id(alloc: Global, namespace: &str, name: &str) -> Result<SharedText, NoMemory>
    ensures { IfOk result (λ id. id ≡ namespace.now ++ name.now) }
{
    let id = format!(in alloc; "{namespace}{name}")?;
    SharedText::new(alloc, Text::from_string(id))
}

// ---- kinds

/// A kind of modules, by its name and its id.
#[derive(Drop)]
pub struct ModuleKind {
    pub name: SharedText,
    pub id: SharedText,
}

impl ModuleKind {
    fn new(alloc: Global, namespace: &str, name: &str) -> Result<ModuleKind, NoMemory>
        ensures { IfOk result (λ kind. kind ≡ module_kind namespace.now name.now) }
    {
        let id = module_id(alloc, namespace, name)?;
        let name = SharedText::from_str(alloc, name)?;
        Ok(ModuleKind { name, id })
    }

    fn share(&self) -> Result<ModuleKind, NoMemory>
        ensures { IfOk result (λ kind. kind ≡ self.now) }
    {
        let name = self.name.share()?;
        let id = self.id.share()?;
        Ok(ModuleKind { name, id })
    }

    // Whether it is the kind of this name in this namespace.
    fn is(&self, namespace: &str, name: &str) -> bool
        ensures { IsTrue result → self.now ≡ module_kind namespace.now name.now }
    {
        self.name.equals(name) && is_id(self.id.as_str(), namespace, name)
    }
}

fn is_id(id: &str, namespace: &str, name: &str) -> bool
    ensures { IsTrue result → id.now ≡ namespace.now ++ name.now }
{
    match id.as_bytes().strip_prefix(namespace.as_bytes()) {
        None => false,
        Some(rest) => rest == name.as_bytes(),
    }
}

// ---- modules

/// The modules that were found so far, and the texts that they share. Contracts see the list of the modules.
#[derive(Drop)]
pub struct Found {
    modules: List<PlanModule>,
    // of these modules
    kinds: List<ModuleKind>,
    words: Words,
}

impl Model for Found {
    ghost use Rattle.std.specs.Prelude.{List};
    ghost use Rattle.cd_legal.specs.declared.plan.PlanModule.{PlanModule};

    ghost Value = { List PlanModule };

    ghost view = { λ found. found.modules };
}

impl Found {
    /// None yet.
    pub fn new(alloc: Global) -> Result<Found, NoMemory>
        ensures { IfOk result (λ found. found ≡ []) }
    {
        let words = Words::new(alloc)?;
        Ok(Found {
            modules: List::new(alloc),
            kinds: List::new(alloc),
            words,
        })
    }

    /// The words of places.
    pub fn words(&self) -> &Words {
        &self.words
    }

    /// One module more.
    pub fn push(&mut self, next: PlanModule) -> Result<(), NoMemory>
        ensures { OnOk result (self.new ≡ self.old ++ next ∷ []) }
    {
        self.modules.push(next)
    }

    /// The kind of this name in this namespace, which ends in a dot. It is made once.
    pub fn kind(
        &mut self,
        alloc: Global,
        namespace: &str,
        name: &str,
    ) -> Result<ModuleKind, NoMemory>
        ensures kind { IfOk result (λ kind. kind ≡ module_kind namespace.now name.now) }
        ensures modules { self.new ≡ self.old }
    {
        for kind in self.kinds.as_slice() {
            if kind.is(namespace, name) {
                return kind.share();
            }
        }
        let kind = ModuleKind::new(alloc, namespace, name)?;
        self.kinds.push(kind.share()?)?;
        Ok(kind)
    }

    /// All of them.
    pub fn into_list(self) -> List<PlanModule>
        ensures { result ≡ self }
    {
        let Found {
            modules,
            kinds: _,
            words: _,
        } = self;
        modules
    }
}
