ghost use Rattle.std.specs.Prelude.{◌≡◌, ◌≤◌, false, true, IfOk, IsErrOf};
ghost use Rattle.std.specs.Result.{result_map_both};
ghost use Rattle.cd_text.specs.Gives.{Gives};
ghost use Rattle.cd_tree.specs.Tree.{IsSound};
ghost use Rattle.cd_outside.specs.Counts.{Rose};
ghost use Rattle.cd_program.specs.Config.{Gave};
ghost use Rattle.cd_program.specs.Configuration.{configured, if_planned};
ghost use Rattle.cd_outside.specs.Devices.{device};
ghost use Rattle.cd_program.specs.Top.{Begins, Loads};
ghost use Rattle.cd_program.specs.Words.{IsSoundStart, is_of_file};
ghost use Rattle.cd_program.specs.declared.refusal.Refusal.{Refusal as Refused};

use crate::initial::Initial;
use crate::refusal::Refusal;
use cd_module::LoadFault;
use cd_module_set::{Loaded, ModuleSet};
use cd_outside::{Source, Taken};
use cd_text::Octets;
use cd_tree::{MAX_TEXT_BYTES, Tree, TreeFault, read};
use std::alloc::Global;

/// How many bytes of a configuration are read at a time.
pub const CONFIG_READ_BYTES: usize = 16_384;

/// Why the bytes of a configuration could not be had.
#[derive(Clone, Copy, Debug, PartialEq, Eq)]
pub enum ConfigFault {
    /// The source failed.
    Failed,
    /// Out of memory.
    NoMemory,
}

/// Reads the source to its end, or until it has given more bytes than a configuration may have.
pub fn read_config<S: Source>(alloc: Global, config: &mut S) -> Result<Octets, ConfigFault>
    ensures gave { IfOk result (λ bytes. Gave bytes (S.left config.old) (S.left config.new)) }
    ensures later { S.faults config.old ≤ S.faults config.new }
    ensures failed { IsErrOf result ConfigFault.Failed → Rose (S.faults config.old) (S.faults config.new) }
{
    let mut bytes = Octets::new(alloc);
    let mut buffer = [0u8; CONFIG_READ_BYTES];
    while bytes.len() <= MAX_TEXT_BYTES {
        match config.read(&mut buffer) {
            Taken::Bytes(count) => {
                if bytes.append(&buffer[..count]).is_err() {
                    return Err(ConfigFault::NoMemory);
                }
            }
            Taken::End => return Ok(bytes),
            Taken::Failed => return Err(ConfigFault::Failed),
        }
    }
    Ok(bytes)
}

/// Why there is no configuration.
#[derive(Debug, Drop)]
pub enum Unloaded {
    /// The source failed.
    Failed,
    /// The configuration is refused.
    Refused(Refusal),
    /// Out of memory.
    NoMemory,
}

/// The configuration of these bytes.
#[tactic(auto, unfolding(crate::specs::Configuration::configured))]
fn configured<M: ModuleSet>(alloc: Global, bytes: &[u8]) -> Result<Loaded<M>, Refusal>
    ensures { Gives Refusal.NoMemory (result_map_both (λ loaded. loaded.tree) (λ refusal. refusal) result) (configured M.plan bytes.now) }
{
    let tree = match read(alloc, bytes) {
        Ok(tree) => tree,
        Err(TreeFault::NoMemory) => return Err(Refusal::NoMemory),
        Err(fault) => return Err(Refusal::NoTree(fault)),
    };
    match M::load(alloc, tree) {
        Ok(loaded) => Ok(loaded),
        Err(LoadFault::Refused(fault)) => Err(Refusal::Faulty(fault)),
        Err(LoadFault::NoMemory) => Err(Refusal::NoMemory),
    }
}

/// Reads the source, and loads the configuration of its bytes.
pub fn load<M: ModuleSet, S: Source>(alloc: Global, config: &mut S) -> Result<Loaded<M>, Unloaded>
    ensures fine { IfOk result (λ loaded. Loads M.plan (S.left config.old) (S.left config.new) (Ok loaded.tree)) }
    ensures refused { (refusal : Refused) → result ≡ Err (Unloaded.Refused refusal) → Loads M.plan (S.left config.old) (S.left config.new) (Err refusal) }
    ensures failed { result ≡ Err Unloaded.Failed → Rose (S.faults config.old) (S.faults config.new) }
{
    let bytes = match read_config(alloc, config) {
        Ok(bytes) => bytes,
        Err(ConfigFault::Failed) => return Err(Unloaded::Failed),
        Err(ConfigFault::NoMemory) => return Err(Unloaded::NoMemory),
    };
    match configured(alloc, bytes.as_slice()) {
        Ok(loaded) => Ok(loaded),
        Err(Refusal::NoMemory) => Err(Unloaded::NoMemory),
        Err(refusal) => Err(Unloaded::Refused(refusal)),
    }
}

// Loads a tree, and reads nothing.
fn load_tree<M: ModuleSet>(alloc: Global, first: Tree) -> Result<Loaded<M>, Unloaded>
    requires { IsSound first }
    ensures fine { IfOk result (λ loaded. if_planned first (M.plan first) ≡ Ok loaded.tree) }
    ensures refused { (refusal : Refused) → result ≡ Err (Unloaded.Refused refusal) → if_planned first (M.plan first) ≡ Err refusal }
    ensures read { ¬ (result ≡ Err Unloaded.Failed) }
{
    match M::load(alloc, first) {
        Ok(loaded) => Ok(loaded),
        Err(LoadFault::Refused(fault)) => Err(Unloaded::Refused(Refusal::Faulty(fault))),
        Err(LoadFault::NoMemory) => Err(Unloaded::NoMemory),
    }
}

/// Loads the configuration that a run begins with.
pub fn load_initial<M: ModuleSet, S: Source>(
    alloc: Global,
    initial: Initial,
    config: &mut S,
) -> Result<Loaded<M>, Unloaded>
    requires { IsSoundStart initial }
    ensures fine { IfOk result (λ loaded. Begins M.plan initial (device S.left S.faults config.old config.new) (Ok loaded.tree)) }
    ensures refused { (refusal : Refused) → result ≡ Err (Unloaded.Refused refusal) → Begins M.plan initial (device S.left S.faults config.old config.new) (Err refusal) }
    ensures failed { result ≡ Err Unloaded.Failed → (is_of_file initial ≡ true) × Rose (S.faults config.old) (S.faults config.new) }
    ensures unread { is_of_file initial ≡ false → config.new ≡ config.old }
{
    match initial {
        Initial::OfFile => load(alloc, config),
        Initial::Null => load_tree(alloc, Tree::Null),
        Initial::Saved(tree) => load_tree(alloc, tree),
    }
}
