//! The routes of a server, laid out.
ghost use Rattle.cd_routes.specs.Serving.{restored};
ghost use Rattle.std.specs.Prelude.{◌≡◌};
ghost use Rattle.cd_chain.specs.Indexes.{AreSound};

use crate::compiling::{Compiler, Plan};
use crate::index::Index;
use crate::naming::{Layout, lay_all};
use crate::place::Place;
use crate::progress::Ended;
use crate::running::{fail_into, run};
use crate::stepping::{bare_answer, empty_answer};
use cd_fill::Scene;
use cd_routes::{NamedRoute, Route};
use cd_text::{List, NoMemory, Octets};
use cd_wire::{Answer, Request, copy_fields};
use std::alloc::Global;
use std::mem::replace;

/// The routes and error routes of a server as one vector of places, with each of its named routes once.
#[derive(Debug, Drop)]
pub struct Chain {
    pub places: List<Place>,
    /// Which routes of long lists may match a path: they save time alone.
    pub indexes: List<Index>,
    /// Where the routes begin.
    pub routes: usize,
    /// Where the error routes begin.
    pub errors: Option<usize>,
    ghost sound: { AreSound places indexes },
}

impl Chain {
    ghost use Rattle.std.specs.Prelude.{IfOk, OnOk, List};
    ghost use Rattle.cd_fill.specs.Scene.{scene_of};
    ghost use Rattle.cd_routes.specs.declared.server.Server.{Server as ServerOf};
    ghost use Rattle.cd_routes.specs.Invoking.{HasNoCycle};
    ghost use Rattle.cd_routes.specs.Running.{with_error};
    ghost use Rattle.cd_routes.specs.Serving.{error_answer, server_answer};
    ghost use Rattle.cd_chain.specs.Chains.{from_place, ErrorsStand, IsMadeOf, Stands, chain_answer};
    ghost use Rattle.cd_chain.specs.Growing.{Grows};
    ghost use Rattle.cd_chain.specs.Laying.{AreLaid, entered_by};

    #[tactic(auto, using(crate::proofs::Standing::errors_laid, crate::proofs::Layouts::grows_same))]
    fn compile_errors(
        compiler: &Compiler<'_>,
        plan: &mut Plan,
        errors: Option<List<Route>>,
    ) -> Result<Option<usize>, NoMemory>
        requires entries { AreLaid plan.old.places.items compiler.now.entries.now }
        requires sound { AreSound plan.old.places.items plan.old.indexes.items }
        ensures stands { IfOk result (λ n. ErrorsStand plan.new.places.items n (entered_by plan.old.places.items compiler.now.entries.now compiler.now.names.now) errors) }
        ensures grows { OnOk result (Grows plan.old.places.items plan.new.places.items) }
        ensures sound { OnOk result (AreSound plan.new.places.items plan.new.indexes.items) }
    {
        match errors {
            None => Ok(None),
            Some(given) => {
                let begin = compiler.lay_routes(plan, given, 0)?;
                Ok(Some(begin))
            }
        }
    }

    /// Lays out the routes of a server, whose handlers and matchers move into the chain. No named route may lead to itself:
    /// `Server::first_in_cycle` says whether one does.
    pub fn compile(
        alloc: Global,
        routes: List<Route>,
        errors: Option<List<Route>>,
        named: List<NamedRoute>,
    ) -> Result<Chain, NoMemory>
        requires { HasNoCycle named }
        ensures { IfOk result (λ chain. Stands chain routes errors named) }
    {
        let layout = lay_all(alloc, named)?;
        let Layout {
            mut plan,
            names,
            entries,
        } = layout;
        let compiler = Compiler {
            alloc,
            names: &names,
            entries: entries.as_slice(),
        };
        let main = compiler.lay_routes(&mut plan, routes, 0)?;
        let failing = Chain::compile_errors(&compiler, &mut plan, errors)?;
        let Plan { places, indexes } = plan;
        Ok(Chain {
            places: List::from_vec(places),
            indexes: List::from_vec(indexes),
            routes: main,
            errors: failing,
        })
    }

    /// What the server that it was made of answers to a request: every request has an answer, and there is no other error than
    /// want of memory.
    #[tactic(auto, using(crate::proofs::Standing::answers_alike))]
    pub fn answer<'r>(&'r self, alloc: Global, request: &'r Request) -> Result<Answer<'r>, NoMemory>
        ensures server { (server : ServerOf) → IsMadeOf self.now server → IfOk result (λ answer. answer ≡ server_answer server request.now) }
        ensures places { IfOk result (λ answer. answer ≡ chain_answer self.now (scene_of request.now)) }
    {
        let scene = Scene::new(alloc, request)?;
        let answer = self.answer_from(alloc, scene)?;
        Ok(answer)
    }

    /// What it answers to a request that has come to this scene.
    #[tactic(auto, unfolding(crate::specs::Chains::chain_answer))]
    pub fn answer_from<'r>(
        &'r self,
        alloc: Global,
        scene: Scene<'r>,
    ) -> Result<Answer<'r>, NoMemory>
        ensures { IfOk result (λ answer. answer ≡ chain_answer self.now scene.entry) }
    {
        let mut scene = scene;
        self.answer_in(alloc, &mut scene)
    }

    #[tactic(auto, unfolding(crate::specs::Chains::chain_answer))]
    fn answer_in<'r>(&'r self, alloc: Global, scene: &mut Scene<'r>) -> Result<Answer<'r>, NoMemory>
        ensures { IfOk result (λ answer. answer ≡ chain_answer self.now scene.old) }
    {
        match run(
            alloc,
            self.places.as_slice(),
            self.indexes.as_slice(),
            self.routes,
            scene,
        )? {
            Ended::Answered(answer) => Ok(answer),
            Ended::Failed(status, message) => match self.errors {
                None => Ok(bare_answer(alloc, status, scene)),
                Some(errors) => self.error_answer(alloc, errors, scene, status, message),
            },
        }
    }

    // What error routes answer. The first error's fields are kept for the case that they fail too.
    fn error_answer<'r>(
        &'r self,
        alloc: Global,
        errors: usize,
        scene: &mut Scene<'r>,
        status: u16,
        message: Octets,
    ) -> Result<Answer<'r>, NoMemory>
        ensures { IfOk result (λ answer. answer
            ≡ error_answer scene.old status (from_place self.now.places errors (with_error status message (restored scene.old)))) }
    {
        let fields = copy_fields(alloc, scene.response.as_slice())?;
        restore(scene);
        fail_into(status, message, scene);
        match run(
            alloc,
            self.places.as_slice(),
            self.indexes.as_slice(),
            errors,
            scene,
        )? {
            Ended::Answered(answer) => Ok(answer),
            Ended::Failed(_, _) => Ok(empty_answer(status, fields)),
        }
    }
}

// What is asked for is what was asked for at first again.
fn restore(scene: &mut Scene<'_>)
    ensures { scene.new ≡ restored scene.old }
{
    match replace(&mut scene.original, None) {
        Some(line) => {
            let _ = replace(&mut scene.current, line);
        }
        None => {}
    }
}
