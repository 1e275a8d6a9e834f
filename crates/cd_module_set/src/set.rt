ghost use Rattle.std.specs.Prelude.{◌≡◌, ◌≢◌, IfOk, List, Option, Result, Err};
ghost use Rattle.std.specs.Result.{result_map_both};
ghost use Rattle.cd_text.specs.Gives.{Gives};
ghost use Rattle.cd_tree.specs.Tree.{IsSound};
ghost use Rattle.cd_outside.specs.declared.address.Address.{Address};
ghost use Rattle.cd_tree.specs.declared.tree.Tree.{Tree};
ghost use Rattle.cd_wire.specs.declared.request.Request.{Request};
ghost use Rattle.cd_module.specs.declared.fault.LoadFault.{LoadFault};
ghost use Rattle.cd_legal.specs.declared.plan.Plan.{Plan};
ghost use Rattle.cd_module_set.specs.Acts.{Acts, DoAlike, answer_at, nobody};
ghost use Rattle.cd_module_set.specs.declared.target.Responder.{Responder};

use crate::loaded::Loaded;
use crate::target::{Line, Responder};
use cd_module::LoadFault;
use cd_outside::Address;
use cd_text::{List, NoMemory};
use cd_tree::Tree;
use cd_wire::{Answer, Request};
use std::alloc::Global;

/// A set of modules, by what configurations mean to it (Caddy, Extending Caddy).
pub trait ModuleSet: Sized {
    /// What a configuration is turned into when it is loaded, from which its requests are answered.
    type Compiled: Send + Sync + Drop;

    /// The modules and apps that a tree comes to as a configuration, or its first fault.
    ghost plan: { Tree → Result Plan LoadFault };

    /// What a configuration with this tree does.
    ghost acts: { Tree → Acts };

    /// What a compiled configuration does.
    ghost form: { Self.Compiled → Acts };

    /// The responder is the one at the address, in a compiled configuration.
    ghost responds: { Self.Compiled → Address → Responder → Type 0 };

    /// The tree that a request asks for under a configuration with this tree, where it asks for a change.
    ghost change: { Tree → Request → Option Tree };

    /// A configuration at whose addresses nobody answers: the one before the first, and the one after the last.
    fn nothing(alloc: Global) -> Result<Self::Compiled, NoMemory>
        ensures { IfOk result (λ compiled. DoAlike (form compiled) nobody) };

    /// Loads a configuration, or gives its first fault.
    fn load(alloc: Global, tree: Tree) -> Result<Loaded<Self>, LoadFault>
        requires { IsSound tree }
        ensures plan { Gives LoadFault.NoMemory (result_map_both (λ loaded. loaded.plan) (λ fault. fault) result) (plan tree) }
        ensures tree { IfOk result (λ loaded. loaded.tree ≡ tree) };

    /// Who answers at an address. It takes no memory.
    fn target(compiled: &Self::Compiled, at: &Address) -> Responder
        ensures target { result.target ≡ (form compiled.now).target at.now }
        ensures responds { responds compiled.now at.now result };

    /// The answer of the responder at an address to a request; none exactly where the address is none of an app. What it lends
    /// lives as long as the compiled form and the request.
    fn answer<'a>(
        alloc: Global,
        compiled: &'a Self::Compiled,
        at: &Address,
        responder: Responder,
        request: &'a Request,
    ) -> Result<Option<Answer<'a>>, NoMemory>
        requires { responds compiled.now at.now responder }
        ensures { IfOk result (λ answer. answer ≡ answer_at (form compiled.now) at.now request.now) };

    /// The lines that are logged once the responder at an address has answered a request.
    fn lines(
        alloc: Global,
        compiled: &Self::Compiled,
        at: &Address,
        responder: Responder,
        request: &Request,
        answer: &Answer<'_>,
    ) -> Result<List<Line>, NoMemory>
        requires { responds compiled.now at.now responder }
        ensures { IfOk result (λ lines. lines ≡ (form compiled.now).lines at.now request.now answer.now) };

    /// Which modules and apps a tree comes to, or which fault it has, does not depend on memory.
    ghost sure: { (tree : Tree) → plan tree ≢ Err LoadFault.NoMemory };
}
