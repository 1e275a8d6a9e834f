//! How many configurations are kept, by examples.
ghost use Rattle.std.specs.Prelude.{◌≡◌, ◌∷◌, [], true};
ghost use Rattle.cd_legal.specs.State.{opening_state};
ghost use Rattle.cd_life.specs.Standing.{kept_among};

/// Of two configurations both are kept while none is retired, and the second alone once the first is. The one that was published
/// last is kept after the halt, though it is retired.
pub fn configurations_are_kept_until_they_are_retired()
    ensures both { kept_among (record opening_state { serial = 2; published = 0 ∷ 1 ∷ [] }) ≡ 2 }
    ensures second { kept_among (record opening_state { serial = 2; published = 0 ∷ 1 ∷ []; retired = 0 ∷ 1 ∷ [] }) ≡ 1 }
    ensures last { kept_among (record opening_state { serial = 3; halted = true; published = 0 ∷ 1 ∷ []; retired = 0 ∷ 1 ∷ 2 ∷ [] }) ≡ 1 }
{}
