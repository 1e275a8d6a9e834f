//! The set of the standard modules.
ghost use Rattle.std.specs.Prelude.{◌≡◌, IfOk};
ghost use Rattle.cd_admin.specs.Deciding.{change_of};
ghost use Rattle.cd_standard.specs.Acting.{acts_of_tree, plan_of_tree};
ghost use Rattle.cd_standard.specs.Compiled.{compiled_acts, lines_by, server_lines};
ghost use Rattle.cd_standard.specs.Responders.{responds, server_numbered};
ghost use Rattle.cd_standard.specs.Sure.{plan_is_sure};

use crate::compiled::{Compiled, CompiledServer};
use crate::loading::{Configured, load};
use cd_admin::Admin;
use cd_echo::echo_answer;
use cd_log::Logs;
use cd_module::LoadFault;
use cd_module_set::{Line, Loaded, ModuleSet, Responder, Target};
use cd_outside::Address;
use cd_text::{List, NoMemory};
use cd_tree::Tree;
use cd_wire::{Answer, Request};
use std::alloc::Global;

/// The set of the standard modules: the admin API, the apps `echo` and `http`, and the matchers and handlers of `http`.
///
/// What a request asks for is what the admin API decides, by this set's own verdict. Lines are those of a server's answers.
pub struct Standard;

impl ModuleSet for Standard {
    type Compiled = Compiled;

    ghost plan = { plan_of_tree };

    ghost acts = { acts_of_tree };

    ghost form = { compiled_acts };

    ghost responds = { responds };

    ghost change = { change_of plan_of_tree };

    ghost sure = { plan_is_sure };

    #[tactic(auto, using(crate::proofs::Doing::idle_does_nothing))]
    fn nothing(alloc: Global) -> Result<Compiled, NoMemory> {
        let mut admin = Admin::usual(alloc)?;
        admin.disabled = true;
        Ok(Compiled {
            admin,
            apps: List::new(alloc),
            logs: Logs::none(alloc),
        })
    }

    #[tactic(auto, using(crate::proofs::Doing::plans_as_loaded, crate::proofs::Doing::few_modules, crate::proofs::Doing::few_apps, crate::proofs::Doing::does_as_loaded, crate::proofs::Doing::none_in_cycle))]
    fn load(alloc: Global, tree: Tree) -> Result<Loaded<Standard>, LoadFault> {
        let Configured {
            configuration,
            plan,
        } = load(alloc, &tree)?;
        let compiled = Compiled::compile(alloc, configuration)?;
        Ok(Loaded {
            tree,
            plan,
            compiled,
        })
    }

    fn target(compiled: &Compiled, at: &Address) -> Responder {
        compiled.responder_at(at)
    }

    fn answer<'a>(
        alloc: Global,
        compiled: &'a Compiled,
        _at: &Address,
        responder: Responder,
        request: &'a Request,
    ) -> Result<Option<Answer<'a>>, NoMemory> {
        match responder.target {
            Target::Admin | Target::Nobody => Ok(None),
            Target::App => match compiled.server_of(responder) {
                Some(server) => Ok(Some(server.chain.answer(alloc, request)?)),
                None => Ok(Some(echo_answer(alloc, request))),
            },
        }
    }

    fn lines(
        alloc: Global,
        compiled: &Compiled,
        _at: &Address,
        responder: Responder,
        request: &Request,
        answer: &Answer<'_>,
    ) -> Result<List<Line>, NoMemory> {
        match responder.target {
            Target::Admin | Target::Nobody => Ok(List::new(alloc)),
            Target::App => lines_of_app(alloc, compiled, responder, request, answer),
        }
    }
}

// The lines of the server with a responder's numbers; of another app nothing is logged.
fn lines_of_app(
    alloc: Global,
    compiled: &Compiled,
    responder: Responder,
    request: &Request,
    answer: &Answer<'_>,
) -> Result<List<Line>, NoMemory>
    ensures { IfOk result (λ lines. lines ≡ lines_by compiled.now.logs
        (server_numbered compiled.now.apps responder.app responder.server) request.now answer.now) }
{
    match compiled.server_of(responder) {
        Some(server) => server_lines(alloc, &compiled.logs, server, request, answer),
        None => Ok(List::new(alloc)),
    }
}

fn server_lines(
    alloc: Global,
    logs: &Logs,
    server: &CompiledServer,
    request: &Request,
    answer: &Answer<'_>,
) -> Result<List<Line>, NoMemory>
    ensures { IfOk result (λ lines. lines ≡ server_lines logs.now server.now request.now answer.now) }
{
    if server.logs {
        logs.lines(alloc, &server.name, request, answer)
    } else {
        Ok(List::new(alloc))
    }
}

fn crosses<T: Send + Sync>(_value: &T) {}

/// A law: a compiled configuration may go to another thread, and threads may share it.
pub fn configurations_cross_threads(compiled: &Compiled) {
    crosses(compiled)
}
