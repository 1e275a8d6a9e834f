ghost use Rattle.std.specs.Prelude.{◌≡◌, ◌≢◌, None, Ok, IfOk};
ghost use Rattle.std.specs.Result.{IsOk, result_map_both};
ghost use Rattle.cd_text.specs.Steps.{◌▷◌};
ghost use Rattle.cd_text.specs.Gives.{Gives};
ghost use Rattle.cd_tree.specs.Tree.{IsSound};
ghost use Rattle.cd_ids.specs.Ids.{id_fault};
ghost use Rattle.cd_wire.specs.declared.request.Request.{Request};
ghost use Rattle.cd_admin.specs.Admin.{admin_in};
ghost use Rattle.cd_admin.specs.Deciding.{decided, replaced, fine, ended, new_tree};
ghost use Rattle.cd_admin.specs.Decisions.{IsServed, said};

use crate::administered::Administered;
use crate::answers::{done, refusal, shown};
use crate::asking::asked_by;
use crate::decision::Decision;
use crate::denial::Denial;
use crate::ending::Ending;
use crate::laws::changes_are_decided;
use crate::making::make;
use crate::origins::admit;
use cd_module::LoadFault;
use cd_module_set::Loaded;
use cd_text::NoMemory;
use cd_tree::Tree;
use cd_wire::Request;
use std::alloc::Global;

/// What a request comes to under a tree (Caddy documentation, "API").
///
/// The tests, in their order, and how the request ends where one does not pass: where the configuration enforces origins, its
/// Host is expected, and its Origin if it has one (403); its path names something (404), which takes its method (405, with
/// Allow); POST to `/stop` is the halt; a body is JSON by its Content-Type, or a Caddyfile for `/load` (400), and is there, and
/// is a tree or a Caddyfile without a fault (400); an id is known (404); a GET is answered with the value and its tag, or why its
/// path leads nowhere; If-Match has the form of a tag (400) and holds (412); the edit is done (400, 404, 409); the tree differs,
/// or Cache-Control has `must-revalidate` (else 200, and nothing changes); the set of modules finds no fault (400). Then the tree
/// is replaced.
///
/// The tree of a replacement is the one that the request asks for by the meaning of the set, so that a board may publish it by this
/// request; an answer and the halt come where the request asks for none.
#[tactic(auto, unfolding(crate::specs::Deciding::decided))]
pub fn decide<M: Administered>(
    alloc: Global,
    tree: &Tree,
    request: &Request,
) -> Result<Decision<M>, NoMemory>
    requires sound { IsSound tree.now }
    requires served { IsServed M.plan tree.now }
    ensures exact { IfOk result (λ decision. said decision ≡ decided M.plan tree.now request.now) }
    ensures asked { IfOk result (λ decision. M.change tree.now request.now ≡ new_tree (said decision)) }
{
    changes_are_decided::<M>();
    match replaced::<M>(alloc, tree, request) {
        Ok(loaded) => Ok(Decision::Replace(loaded)),
        Err(ending) => ended(alloc, ending),
    }
}

/// The configuration that takes the place of this one, or how the request ends before that.
#[tactic(auto, unfolding(crate::specs::Deciding::replaced))]
fn replaced<M: Administered>(
    alloc: Global,
    tree: &Tree,
    request: &Request,
) -> Result<Loaded<M>, Ending>
    requires sound { IsSound tree.now }
    requires ids { id_fault tree.now ≡ None }
    requires admin { IsOk (admin_in tree.now) }
    ensures { Gives Ending.NoMemory (result_map_both (λ loaded. loaded.tree) (λ ending. ending) result)
        (replaced M.plan tree.now request.now) }
{
    let fields = request.fields().list(alloc)?;
    admit(alloc, tree, request.host(), fields.as_slice())?;
    let asked = asked_by(alloc, request)?;
    let made = make(alloc, tree, fields.as_slice(), &asked)?;
    load(alloc, made)
}

/// The loaded tree, or that it has a fault.
fn load<M: Administered>(alloc: Global, tree: Tree) -> Result<Loaded<M>, Ending>
    requires { IsSound tree }
    ensures { Gives Ending.NoMemory (result_map_both (λ loaded. loaded.tree) (λ ending. ending) result)
        (fine (M.plan tree) ▷ λ _. Ok tree) }
{
    match M::load(alloc, tree) {
        Ok(loaded) => Ok(loaded),
        Err(LoadFault::Refused(refusal)) => Err(Ending::Denied(Denial::Load(refusal))),
        Err(LoadFault::NoMemory) => Err(Ending::NoMemory),
    }
}

/// The answer to a request that changes nothing, or the halt.
fn ended<M: Administered>(alloc: Global, ending: Ending) -> Result<Decision<M>, NoMemory>
    ensures exact { IfOk result (λ decision. said decision ≡ ended ending) }
    ensures memory { IfOk result (λ _. ending ≢ Ending.NoMemory) }
{
    match ending {
        Ending::Denied(denial) => Ok(Decision::Reply(refusal(alloc, &denial)?)),
        Ending::Shown(tag, value) => Ok(Decision::Reply(shown(alloc, &tag, &value)?)),
        Ending::Unchanged => Ok(Decision::Reply(done(alloc))),
        Ending::Halt => Ok(Decision::Halt),
        Ending::NoMemory => Err(NoMemory),
    }
}
