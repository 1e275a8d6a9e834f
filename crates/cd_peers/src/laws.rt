//! What the definitions mean beyond what a call says, each as a call that does nothing.
ghost use Rattle.std.specs.Prelude.{◌≡◌, ◌<◌, ◌≤◌, ℕ, Bool, List, [], ◌∷◌, ◌++◌, length};
ghost use Rattle.cd_outside.specs.declared.address.Address.{Address as At};
ghost use Rattle.cd_peers.specs.declared.limits.TheConstants.{MAX_UPSTREAMS, MAX_PLACES};
ghost use Rattle.cd_peers.specs.declared.policy.Policy.{Policy as Rule};
ghost use Rattle.cd_peers.specs.declared.state.BalancerState.{BalancerState as Kept};
ghost use Rattle.cd_peers.specs.Balance.{count_at, fresh, freed, begun, ended};
ghost use Rattle.cd_peers.specs.Pick.{IsPick};
ghost use Rattle.cd_peers.specs.Calls.{Call, began, finished, live, Leads};

/// The limits, which the contracts cite by name, as numbers.
pub fn limits_are()
    ensures upstreams { MAX_UPSTREAMS ≡ 16 }
    ensures places { MAX_PLACES ≡ 128 }
{}

/// After any list of calls on a new balancer, the count of each upstream is the number of exchanges that were begun there and
/// not ended. That of a number which no upstream has is 0.
pub fn counts_are_live()
    ensures live { (policy : Rule) (upstreams : List At) (calls : List Call) (b : Kept)
        → Leads (fresh policy upstreams) calls b → (upstream : ℕ) → count_at upstream b.places ≡ live upstream calls }
    ensures others { (policy : Rule) (upstreams : List At) (calls : List Call) (b : Kept)
        → Leads (fresh policy upstreams) calls b → (number : ℕ) → length upstreams ≤ number → count_at number b.places ≡ 0 }
{}

/// What a caller of a balancer keeps in mind over its calls: each call leads on.
pub fn calls_lead_on()
    ensures none { (b : Kept) → Leads b [] b }
    ensures begin { (b c : Kept) (calls : List Call) (place upstream : ℕ) → Leads b calls c
        → place < MAX_PLACES → IsPick (freed place c) upstream
        → Leads b (calls ++ began place upstream ∷ []) (begun place upstream c) }
    ensures end { (b c : Kept) (calls : List Call) (place : ℕ) (good : Bool) → Leads b calls c
        → place < MAX_PLACES → Leads b (calls ++ finished place good ∷ []) (ended place good c) }
{}
