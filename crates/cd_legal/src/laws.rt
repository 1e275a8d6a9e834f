//! What the definitions mean beyond what a call says, each as a call that does nothing.
ghost use Rattle.std.specs.Prelude.{◌≡◌, ◌≤◌, ◌<◌, ◌&&◌, ◌++◌, ◌∷◌, ◌+◌, [], ℕ, List, Some, is_none, IsTrue, false, cond, length};
ghost use mathlib.Core.List.{IsPrefix};
ghost use Rattle.cd_outside.specs.declared.holder.Holder.{Holder};
ghost use Rattle.cd_legal.specs.declared.entry.Entry.{Entry};
ghost use Rattle.cd_legal.specs.declared.entry.Signed.{Signed};
ghost use Rattle.cd_legal.specs.declared.state.State.{State};
ghost use Rattle.cd_legal.specs.Entry.{signed, mine};
ghost use Rattle.cd_legal.specs.State.{opening_state, has_number, draft_of, conf_of, ticket_of, open_by};
ghost use Rattle.cd_legal.specs.Legal.{allowed, legal, refused_at, state_of, state_at, IsLegal};
ghost use Rattle.cd_legal.specs.Laws.{core, tickets_fit};
ghost use Rattle.cd_legal.specs.Abandoned.{is_entry_of, is_abandoned_in, without_draft, Leaves};
ghost use Rattle.cd_legal.specs.Whole.{begun, is_closed_in, IsOver, IsWhole};
ghost use Rattle.cd_legal.specs.Placed.{placed};
ghost use Rattle.cd_legal.specs.Fresh.{Fresh};
ghost use Rattle.cd_legal.specs.Owing.{owes_of, owes_by, owes_nothing};
ghost use Rattle.cd_legal.specs.Signing.{is_live_in, IsHistory};
ghost use Rattle.cd_legal.specs.Begins.{begins_at, begins_now};
ghost use Rattle.cd_legal.specs.Serials.{has_serial_in, times, last_conf, is_halted, publishings};
ghost use Rattle.cd_legal.specs.Calls.{fixture_calls, is_shut, shuts, not_opened, failures};

/// A list is legal exactly where it is legal without Begin and Finish, each Begin and Finish is allowed in the state where it
/// stands, and each Retire finds no open ticket there.
pub fn tickets_stand_apart()
    ensures { (log : List Entry) → legal log ≡ (legal (core log) && tickets_fit opening_state log) }
{}

/// A list is legal exactly where no place of it is refused.
pub fn legal_where_nothing_is_refused()
    ensures { (log : List Entry) → is_none (refused_at log) ≡ legal log }
{}

/// A legal list makes each instance, and starts each app, at most once.
pub fn nothing_is_made_twice()
    ensures { (log : List Entry) (h : Holder) → IsTrue (legal log) → begun h log ≤ 1 }
{}

/// In a legal history no pass begins a request under an older serial than it has seen, or under any but the current one.
pub fn legal_is_fresh()
    ensures { (log : List Signed) (k : ℕ) → IsLegal log → Fresh (placed k log) }
{}

/// Where a legal list leaves a draft abandoned, each entry of this draft, wherever it stands, leaves all else as it was: the
/// serial, the trees, the tickets and the pairs of all other holders.
pub fn abandoned_drafts_leave_all_else()
    ensures { (draft : ℕ) (prefix : List Entry) (entry : Entry) (rest : List Entry) →
        IsTrue (legal (prefix ++ entry ∷ rest)) → IsTrue (is_abandoned_in (state_of (prefix ++ entry ∷ rest)) draft) →
        IsTrue (is_entry_of draft entry) → Leaves draft (state_of prefix) (state_of (prefix ++ entry ∷ [])) }
{}

/// Without the entries of a draft that it leaves abandoned a legal list is legal too, and leaves all else the same: a load
/// that failed might as well not have been tried.
pub fn abandoned_drafts_leave_no_trace()
    ensures still_legal { (log : List Entry) (draft : ℕ) → IsTrue (legal log) → IsTrue (is_abandoned_in (state_of log) draft) →
        IsTrue (legal (without_draft draft log)) }
    ensures leaves_the_same { (log : List Entry) (draft : ℕ) → IsTrue (legal log) → IsTrue (is_abandoned_in (state_of log) draft) →
        Leaves draft (state_of (without_draft draft log)) (state_of log) }
{}

/// A legal list after which nothing is left has cleaned each instance that it made, and stopped each app that it started,
/// exactly once, and no key has a pair.
pub fn what_is_over_is_whole()
    ensures { (log : List Entry) → IsTrue (legal log) → IsOver (state_of log) → IsWhole log }
{}

/// Each prefix of a legal list is legal, and each prefix of a history is a history.
pub fn prefixes_are_histories()
    ensures legal { (prefix log : List Signed) → IsPrefix prefix log → IsLegal log → IsLegal prefix }
    ensures signed { (prefix log : List Signed) → IsPrefix prefix log → IsHistory log → IsHistory prefix }
{}

/// In a legal list a caller has one open ticket at most, and its serial is not later than the current one.
pub fn callers_have_one_ticket()
    ensures one { (log : List Entry) (caller : ℕ) → IsTrue (legal log) → open_by caller (state_of log).tickets ≤ 1 }
    ensures serial { (log : List Entry) (caller n : ℕ) → IsTrue (legal log) →
        ticket_of caller (state_of log).tickets ≡ Some n → n ≤ (state_of log).serial }
{}

/// What a pass owes is changed by its own entries alone, and a pass without entries owes nothing.
pub fn passes_owe_by_their_own_entries()
    ensures own { (pass : ℕ) (log : List Signed) (entry : Entry) →
        owes_of pass (log ++ signed pass entry ∷ []) ≡ owes_by (owes_of pass log) entry }
    ensures others { (pass : ℕ) (log more : List Signed) → mine pass more ≡ [] → owes_of pass (log ++ more) ≡ owes_of pass log }
    ensures none { (pass : ℕ) (log : List Signed) → mine pass log ≡ [] → owes_of pass log ≡ owes_nothing }
{}

/// In a history a pass owes the end of a request exactly where it has an open ticket, at that ticket's serial.
pub fn passes_owe_their_tickets()
    ensures { (log : List Signed) (pass : ℕ) → IsHistory log → (owes_of pass log).ticket ≡ ticket_of pass (state_at log).tickets }
{}

/// In a history each draft that a pass owes is live and owed by no other pass, and each live draft is owed by one.
pub fn live_drafts_are_owed()
    ensures live { (log : List Signed) (pass draft : ℕ) → IsHistory log → (owes_of pass log).draft ≡ Some draft →
        IsTrue (is_live_in (state_at log) draft) }
    ensures one { (log : List Signed) (pass other draft : ℕ) → IsHistory log → (owes_of pass log).draft ≡ Some draft →
        (owes_of other log).draft ≡ Some draft → pass ≡ other }
    ensures owned { (log : List Signed) (draft : ℕ) → IsHistory log → IsTrue (is_live_in (state_at log) draft) →
        (pass : ℕ) × ((owes_of pass log).draft ≡ Some draft) }
{}

/// The requests that a legal list begins under its current serial are as many as are counted entry by entry, where each new
/// serial begins at 0.
pub fn begins_are_counted()
    ensures { (log : List Entry) → IsTrue (legal log) → begins_now log ≡ begins_at (state_of log).serial log }
{}

/// The serial of a legal list is the number of its published drafts, and one more once the host has halted; as many drafts
/// are published as it has entries that publish.
pub fn publishing_and_halting_make_the_serial()
    ensures serial { (log : List Entry) → IsTrue (legal log) →
        length (state_of log).published + cond (state_of log).halted 1 0 ≡ (state_of log).serial }
    ensures published { (log : List Entry) → length (state_of log).published ≡ publishings log }
{}

/// While a legal history grows, its serial never falls.
pub fn the_serial_never_falls()
    ensures { (prefix log : List Signed) → IsPrefix prefix log → IsLegal log → (state_at prefix).serial ≤ (state_at log).serial }
{}

/// A legal list's published drafts have their serials, and a draft that has a serial is the one that was published with it.
pub fn published_drafts_have_their_serials()
    ensures has { (log : List Entry) (n draft : ℕ) → IsTrue (legal log) →
        draft_of n (state_of log).published ≡ Some draft → IsTrue (has_serial_in (state_of log) n draft) }
    ensures only { (log : List Entry) (n draft : ℕ) → IsTrue (legal log) →
        IsTrue (has_serial_in (state_of log) n draft) → draft_of n (state_of log).published ≡ Some draft }
{}

/// A legal list retires each serial once at most, and none but superseded ones.
pub fn serials_are_retired_once()
    ensures once { (log : List Entry) (n : ℕ) → IsTrue (legal log) → times n (state_of log).retired ≤ 1 }
    ensures superseded { (log : List Entry) (n : ℕ) → IsTrue (legal log) →
        IsTrue (has_number n (state_of log).retired) → n < (state_of log).serial }
{}

/// The current configuration of a legal list is that of its last Publish, or the halted one; before either it is the
/// opening one.
pub fn the_current_configuration_is_the_last_one()
    ensures last { (log : List Entry) → IsTrue (legal log) → conf_of (state_of log) (state_of log).serial ≡ last_conf log }
    ensures halted { (log : List Entry) → IsTrue (legal log) →
        is_halted (conf_of (state_of log) (state_of log).serial) ≡ (state_of log).halted }
{}

/// While a legal history grows, each serial that is there keeps its configuration.
pub fn configurations_stay()
    ensures { (prefix log : List Signed) (n : ℕ) → IsPrefix prefix log → IsLegal log → n ≤ (state_at prefix).serial →
        conf_of (state_at log) n ≡ conf_of (state_at prefix) n }
{}

/// The fixtures of a legal list are shut once where the host has halted and the apps of the last published serial are
/// stopped, and before that not at all.
pub fn fixtures_are_shut_once()
    ensures { (log : List Entry) → IsTrue (legal log) → shuts (fixture_calls log) ≡ cond (is_shut (state_of log)) 1 0 }
{}

/// The fixtures of a list are asked for as many openings that fail as it has entries with a failed key.
pub fn openings_fail_by_failed_keys()
    ensures { (log : List Entry) → not_opened (fixture_calls log) ≡ failures log }
{}

/// Of a draft that is done with, and of which all that was made is ended, no entry is allowed.
pub fn closed_drafts_have_no_further_entries()
    ensures { (state : State) (draft : ℕ) (entry : Entry) → IsTrue (is_closed_in state draft) → IsTrue (is_entry_of draft entry) →
        allowed state entry ≡ false }
{}
