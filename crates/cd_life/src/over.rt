ghost use Rattle.std.specs.Prelude.{◌≡◌, ℕ, List, None};
ghost use Rattle.cd_legal.specs.declared.entry.Signed.{Signed};
ghost use Rattle.cd_legal.specs.State.{ticket_of};
ghost use Rattle.cd_legal.specs.Legal.{state_at, IsLegal};
ghost use Rattle.cd_legal.specs.Whole.{IsOver};
ghost use Rattle.cd_desk.specs.Emptying.{IsEnded};

/// After a legal history that is over, and in which no request runs any more, nothing is left of a board: it may be ended.
pub fn what_is_over_has_ended()
    ensures { (log : List Signed) → IsLegal log → IsOver (state_at log) → ((caller : ℕ) → ticket_of caller (state_at log).tickets ≡ None) → IsEnded (state_at log) }
{}
