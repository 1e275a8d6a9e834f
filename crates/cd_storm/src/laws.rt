ghost use Rattle.std.specs.Prelude.{◌≡◌, ◌+◌, ◌*◌, ◌%◌, ◌^◌, ℕ};
ghost use Rattle.cd_tree.specs.Tree.{IsSound};
ghost use Rattle.cd_storm.specs.declared.draws.TheConstants.{MULTIPLIER, INCREMENT};
ghost use Rattle.cd_storm.specs.declared.limits.TheConstants.{LEAST_ROUTES, ROUTE_COUNTS, BODIES, LANES, STEPS, ADMIN_PORT, SERVER_PORT};
ghost use Rattle.cd_storm.specs.Draws.{drawn};
ghost use Rattle.cd_storm.specs.FirstTree.{first_tree};

/// The numbers of the generator: each value is made of the one before by these, and the one before the first is the storm's
/// number.
#[tactic(auto, using(crate::proofs::Drawing::drawn_first, crate::proofs::Drawing::drawn_next))]
pub fn generator_is_pinned(number: u64)
    ensures start { drawn number 0 ≡ number }
    ensures next { (n : ℕ) → drawn number (n + 1) ≡ (drawn number n * 6364136223846793005 + 1442695040888963407) % 2 ^ 64 }
{
    let _ = number;
}

/// The numbers of a storm: 200 to 999 drawn routes with 1,000 bodies, and four lanes of 16 steps.
pub fn limits_are_pinned()
    ensures routes { LEAST_ROUTES ≡ 200 }
    ensures counts { ROUTE_COUNTS ≡ 800 }
    ensures bodies { BODIES ≡ 1000 }
    ensures lanes { LANES ≡ 4 }
    ensures steps { STEPS ≡ 16 }
    ensures admin { ADMIN_PORT ≡ 2019 }
    ensures server { SERVER_PORT ≡ 8080 }
{}

/// The law that the first tree of each storm is sound: its keys rise, and it is within the limits of trees.
#[tactic(auto, using(crate::proofs::Soundness::first_tree_sound))]
pub fn tree_is_sound(number: u64)
    ensures { IsSound (first_tree number) }
{
    let _ = number;
}
