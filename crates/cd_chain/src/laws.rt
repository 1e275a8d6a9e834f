ghost use Rattle.std.specs.Prelude.{◌≡◌};
ghost use Rattle.cd_fill.specs.declared.scene.Scene.{Scene as SceneOf};
ghost use Rattle.cd_routes.specs.declared.server.Server.{Server as ServerOf};
ghost use Rattle.cd_routes.specs.Serving.{answer_from};
ghost use Rattle.cd_chain.specs.declared.chain.Chain.{Chain as ChainOf};
ghost use Rattle.cd_chain.specs.Chains.{IsMadeOf, chain_answer};

use crate::chain::Chain;

/// A chain that was made of a server's routes answers as the server does, from any scene on.
#[tactic(auto, using(crate::proofs::Standing::answers_alike))]
pub fn chains_answer_alike()
    ensures { (chain : ChainOf) (server : ServerOf) (x : SceneOf) → IsMadeOf chain server → chain_answer chain x ≡ answer_from server x }
{}

fn crosses<T: Send + Sync>(_value: &T) {}

/// A chain may go to another thread, and threads may share it.
pub fn chains_cross_threads(chain: &Chain) {
    crosses(chain)
}
