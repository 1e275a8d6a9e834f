ghost use Rattle.std.specs.Prelude.{◌≡◌, ℕ, ◌+◌, ◌≤◌, List, [], None, false};
ghost use Rattle.cd_fill.specs.declared.scene.Scene.{Scene};
ghost use Rattle.cd_routes.specs.Running.{Named, run_routes, nothing_left};
ghost use Rattle.cd_routes.specs.Serving.{settled as answer_of};
ghost use Rattle.cd_site.specs.Sequences.{Sequence, HasNoInvoke, AreDistinct, does, settled, groups_of, routes_of};

/// The routes of a sequence answer as the sequence says. The first group may have any number, and the numbers of groups have
/// distinct names.
pub fn sequences_mean_their_routes()
    ensures { (named : Named) (name : ℕ → List ℕ) (limit : ℕ) → AreDistinct name limit → (p : Sequence) (n : ℕ) (x : Scene)
        → HasNoInvoke p → n + groups_of p ≤ limit → x.groups ≡ []
        → answer_of named None (run_routes named (routes_of name p n) nothing_left x) ≡ settled (does p false false x []) }
{}
