//! A set of modules with two configurations, of which each tree comes to one.
ghost use Rattle.std.specs.Prelude.{◌≡◌, IfOk};
ghost use Rattle.cd_tree.specs.declared.tree.Tree.{out-Tree};
ghost use Rattle.cd_tree.specs.declared.tree.Tree.TheVariants.{Bool};
ghost use Rattle.cd_fixed.specs.Fixed.{is_true_layer};

use crate::plans::Plans;
use cd_module::LoadFault;
use cd_module_set::{Line, Loaded, ModuleSet, Responder, Target};
use cd_outside::Address;
use cd_text::{List, NoMemory};
use cd_tree::Tree;
use cd_wire::{Answer, Request};
use std::alloc::Global;
use std::marker::PhantomData;

/// The set whose configurations consist of this.
pub struct Fixed<P> {
    plans: PhantomData<P>,
}

/// Whether the configuration runs.
#[derive(Drop)]
pub struct Form {
    pub running: bool,
}

impl<P: Plans> ModuleSet for Fixed<P> {
    ghost use Rattle.std.specs.Prelude.{true};
    ghost use Rattle.cd_fixed.specs.Fixed.{fixed_verdict, fixed_sure, fixed_acts, fixed_change};

    type Compiled = Form;

    ghost plan = { fixed_verdict P.planned };

    ghost acts = { λ tree. fixed_acts true };

    ghost form = { λ form. fixed_acts form.running };

    // No app answers, so nothing is known of the numbers.
    ghost responds = { λ form at responder. Unit {0} };

    ghost change = { fixed_change };

    ghost sure = { fixed_sure P.planned };

    fn nothing(_alloc: Global) -> Result<Form, NoMemory> {
        Ok(Form { running: false })
    }

    fn load(alloc: Global, tree: Tree) -> Result<Loaded<Fixed<P>>, LoadFault> {
        let Ok(plan) = P::plan(alloc, is_true(&tree)) else {
            return Err(LoadFault::NoMemory);
        };
        let compiled = Form { running: true };
        Ok(Loaded {
            tree,
            plan,
            compiled,
        })
    }

    fn target(compiled: &Form, _at: &Address) -> Responder {
        if compiled.running {
            without_numbers(Target::Admin)
        } else {
            without_numbers(Target::Nobody)
        }
    }

    fn answer<'a>(
        _alloc: Global,
        _compiled: &'a Form,
        _at: &Address,
        _responder: Responder,
        _request: &'a Request,
    ) -> Result<Option<Answer<'a>>, NoMemory> {
        Ok(None)
    }

    fn lines(
        alloc: Global,
        _compiled: &Form,
        _at: &Address,
        _responder: Responder,
        _request: &Request,
        _answer: &Answer<'_>,
    ) -> Result<List<Line>, NoMemory> {
        Ok(List::new(alloc))
    }
}

fn without_numbers(target: Target) -> Responder
    ensures { result ≡ record { target = target; app = 0; server = 0 } }
{
    Responder {
        target,
        app: 0,
        server: 0,
    }
}

/// Whether the tree is true.
pub fn is_true(tree: &Tree) -> bool
    ensures { result ≡ is_true_layer (out-Tree tree.now) }
{
    match tree {
        Tree::Bool(truth) => *truth,
        _ => false,
    }
}

/// The other configuration, of the tree true, or the first one, of the tree false.
pub fn load_fixed<P: Plans>(alloc: Global, other: bool) -> Result<Loaded<Fixed<P>>, LoadFault>
    ensures tree { IfOk result (λ loaded. loaded.tree ≡ Bool other) }
{
    Fixed::<P>::load(alloc, Tree::Bool(other))
}

/// A request for the other configuration, or for the first one.
#[tactic(auto, unfolding(cd_wire::specs::Framing::request_of))]
pub fn request_for(alloc: Global, other: bool) -> Result<Request, NoMemory>
    ensures { IfOk result (λ request. request.close ≡ other) }
{
    let minor = if other { 0 } else { 1 };
    Ok(Request::plain(alloc, b"POST", b"/load", minor)?)
}
