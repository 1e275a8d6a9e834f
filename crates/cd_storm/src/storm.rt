ghost use Rattle.std.specs.Prelude.{◌≡◌, ◌+◌, ◌*◌, IfOk, All, map};
ghost use Rattle.cd_tree.specs.Tree.{IsSound};
ghost use Rattle.cd_storm.specs.Draws.{drawn, route_count};
ghost use Rattle.cd_storm.specs.FirstTree.{first_tree};
ghost use Rattle.cd_storm.specs.Scripts.{scripts, IsFresh};

use crate::draws::Draws;
use crate::laws::tree_is_sound;
use crate::limits::LANES;
use crate::requests::lane_script;
use crate::routes::{routes, tree_with};
use cd_outside::MemoryLane;
use cd_text::{List, NoMemory};
use cd_tree::Tree;
use std::alloc::Global;

/// A workload: the configuration that it begins with, and its lanes.
#[derive(Drop)]
pub struct Storm {
    pub first: Tree,
    /// No call of these lanes fails but for want of memory.
    pub lanes: List<MemoryLane>,
}

/// The storm of a number: the same for the same number.
#[tactic(auto, unfolding(crate::specs::FirstTree::first_tree))]
pub fn script(alloc: Global, number: u64) -> Result<Storm, NoMemory>
    ensures first { IfOk result (λ storm. storm.first ≡ first_tree number) }
    ensures sound { IfOk result (λ storm. IsSound storm.first) }
    ensures scripts { IfOk result (λ storm. map (λ lane. lane.script) storm.lanes ≡ scripts number) }
    ensures fresh { IfOk result (λ storm. All IsFresh storm.lanes) }
{
    let mut draws = Draws { last: number };
    let routes = routes(alloc, number, &mut draws)?;
    let first = tree_with(alloc, routes)?;
    let lanes = lanes(alloc, number, &mut draws)?;
    tree_is_sound(number);
    Ok(Storm { first, lanes })
}

fn lanes(alloc: Global, number: u64, draws: &mut Draws) -> Result<List<MemoryLane>, NoMemory>
    requires { draws.old.last ≡ drawn number (route_count number) }
    ensures scripts { IfOk result (λ lanes. map (λ lane. lane.script) lanes ≡ scripts number) }
    ensures fresh { IfOk result (λ lanes. All IsFresh lanes) }
{
    let mut lanes = List::new(alloc);
    for lane in 0..LANES {
        let script = lane_script(alloc, number, lane, draws)?;
        lanes.push(MemoryLane::new(alloc, script, List::new(alloc)))?;
    }
    Ok(lanes)
}
