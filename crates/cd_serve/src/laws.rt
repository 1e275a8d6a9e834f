//! What the definitions mean, each law as a call that does nothing.
ghost use Rattle.std.specs.Prelude.{◌≡◌, ◌≤◌, ◌++◌, ◌∷◌, ◌+◌, [], ℕ, Bool, List, Option, Some, true, false, cond, min, option_map, sum_by};
ghost use Rattle.std.specs.List.{list_any};
ghost use mathlib.Core.List.{IsPrefix};
ghost use Rattle.cd_outside.specs.declared.accepted.Accepted.TheVariants as accepted;
ghost use Rattle.cd_outside.specs.declared.address.Address.{Address};
ghost use Rattle.cd_outside.specs.declared.past.Connection.{Connection};
ghost use Rattle.cd_outside.specs.declared.past.Past.{Past};
ghost use Rattle.cd_outside.specs.Counts.{count_end, Rose};
ghost use Rattle.cd_outside.specs.Past.{after_accept, after_put, with_connection};
ghost use Rattle.cd_outside.specs.Since.{SinceAccept, CameWith};
ghost use Rattle.cd_text.specs.Steps.{joined};
ghost use Rattle.cd_wire.specs.declared.request.Request.{Request};
ghost use Rattle.cd_wire.specs.Requests.{BeginsRequest};
ghost use Rattle.cd_legal.specs.declared.entry.Signed.{Signed};
ghost use Rattle.cd_legal.specs.Entry.{entries, mine};
ghost use Rattle.cd_legal.specs.Legal.{IsLegal, state_at};
ghost use Rattle.cd_legal.specs.Placed.{Placed, placed, through};
ghost use Rattle.cd_legal.specs.Fresh.{Fresh};
ghost use Rattle.cd_session.specs.declared.cause.Cause.{Cause};
ghost use Rattle.cd_session.specs.declared.connection_end.ConnectionEnd.{ConnectionEnd};
ghost use Rattle.cd_serve.specs.Meanings.{Meaning};
ghost use Rattle.cd_serve.specs.Episodes.{Outcome, is_halt, another_halted};
ghost use Rattle.cd_serve.specs.Replies.{Reply, is_whole};
ghost use Rattle.cd_serve.specs.Connections.{Way, Ending, AllGoOn, EndsBy, Serves};
ghost use Rattle.cd_serve.specs.Complete.{IsComplete};
ghost use Rattle.cd_serve.specs.Guarding.{ConnectionKeepsUp};
ghost use Rattle.cd_serve.specs.Lanes.{IsTold, Told, is_interrupted, finds_halt, interrupted_in, faulted_in, halted_in, answered_in, LaneSoFar};
ghost use Rattle.cd_serve.specs.Reports.{Span, LaneReport, ReportsFrom, EachCovered, NoneRose, NoneInterrupted, ServedLane, ServedLanesFrom, LanesTold, lanes_of};
ghost use Rattle.cd_serve.specs.Serving.{Replied, ConnectionSoFar, ConnectionServed, CausedBy, HasRisen, cut_by};

/// What a lane tells of a history stays so in a longer one, whose further entries others have signed.
pub fn later_entries_of_others_change_nothing()
    ensures told { (m : Meaning) (k : ℕ) (history longer : List Signed) (connections : List Connection) (endings : List Ending)
        → IsPrefix history longer → mine k longer ≡ mine k history
        → Told m k history (placed k history) connections endings
        → Told m k longer (placed k longer) connections endings }
    ensures fresh { (k : ℕ) (history longer : List Signed)
        → IsPrefix history longer → mine k longer ≡ mine k history
        → Fresh (placed k history) → Fresh (placed k longer) }
{}

/// What is told of some entries of a pass stays so however the history goes on, also by the pass itself.
pub fn what_is_told_stays()
    ensures { (m : Meaning) (k : ℕ) (history more : List Signed) (before own : List Placed) (connections : List Connection) (endings : List Ending)
        → IsTold m k history before own connections endings
        → IsTold m k (history ++ more) before own connections endings }
{}

/// A connection that was not interrupted has all its answers: each request of its bytes was answered, unless an answer closed it before,
/// or nobody answered, or too many requests had begun; and what was sent is these answers, and a fixed one where one is due.
pub fn connections_are_complete()
    ensures { (m : Meaning) (k : ℕ) (history : List Signed) (before : List Placed) (c : Connection) (e : Ending)
        → Serves m k history before c e → is_interrupted e.way ≡ false → IsComplete m k history (before ++ e.own) c }
{}

/// Where no fault of lanes rose, and no connection lacked memory, none of those that they tell of was interrupted, and no accept
/// failed.
pub fn lanes_without_faults_are_whole()
    ensures { (m : Meaning) (history : List Signed) (k : ℕ) (lanes : List Span) (reports : List (Option LaneReport))
        → ReportsFrom m history k lanes reports → EachCovered lanes reports 0 → NoneRose lanes → NoneInterrupted reports }
{}

/// Connections that are told one after another are told together.
pub fn connections_are_told_together()
    ensures { (m : Meaning) (k : ℕ) (history : List Signed) (before own more : List Placed) (first then : List Connection) (ended next : List Ending)
        → IsTold m k history before own first ended
        → IsTold m k history (before ++ own) more then next
        → IsTold m k history before (own ++ more) (first ++ then) (ended ++ next) }
{}

/// Counts of connections that are told together add up.
pub fn counts_add_up()
    ensures answered { (first then : List Ending) → answered_in (first ++ then) ≡ answered_in first + answered_in then }
    ensures interrupted { (first then : List Ending) → interrupted_in (first ++ then) ≡ interrupted_in first + interrupted_in then }
    ensures faulted { (first then : List Ending) → faulted_in (first ++ then) ≡ faulted_in first + faulted_in then }
    ensures halted { (first then : List Ending) → halted_in (first ++ then) ≡ halted_in first + halted_in then }
{}

/// Where the host had not halted, and has since, and the pass made no Halt since, another pass has halted.
pub fn a_halt_since_then_is_of_another()
    ensures { (k : ℕ) (seen since : List Signed)
        → (state_at seen).halted ≡ false → (state_at (seen ++ since)).halted ≡ true
        → list_any is_halt (entries (mine k since)) ≡ false
        → another_halted k (seen ++ since) ≡ true }
{}

/// What is known of a connection that is served goes on from nothing: with bytes that come, with its end, and with each request
/// that is replied to.
pub fn connections_go_on()
    ensures starts { (m : Meaning) (k : ℕ) (at : Address) (told : Option Past) → ConnectionSoFar m k at [] [] [] false 0 told told }
    ensures takes { (m : Meaning) (k : ℕ) (at : Address) (replies : List Reply) (own : List Placed) (left piece : List ℕ) (ended : Bool) (answered : ℕ) (first old now : Option Past)
        → ConnectionSoFar m k at replies own left ended answered first old
        → now ≡ option_map (with_connection (λ c. record c { taken = c.taken ++ piece })) old
        → ConnectionSoFar m k at replies own (left ++ piece) ended answered first now }
    ensures ended { (m : Meaning) (k : ℕ) (at : Address) (replies : List Reply) (own : List Placed) (left : List ℕ) (answered : ℕ) (first old now : Option Past)
        → ConnectionSoFar m k at replies own left false answered first old
        → now ≡ option_map (with_connection (λ c. record c { ended = true })) old
        → ConnectionSoFar m k at replies own left true answered first now }
    ensures replies { (m : Meaning) (k : ℕ) (at : Address) (replies : List Reply) (own more : List Placed) (left rest : List ℕ) (ended : Bool) (answered : ℕ) (q : Request) (outcome : Outcome) (first old now : Option Past)
        → ConnectionSoFar m k at replies own left ended answered first old
        → BeginsRequest left q rest → (r : Replied m k at q outcome more old now)
        → ConnectionSoFar m k at (replies ++ r.reply ∷ []) (own ++ more) rest ended (min (answered + cond (is_whole outcome) 1 0) count_end) first now }
    ensures goes_on { (replies : List Reply) (r : Reply) → AllGoOn replies → r.outcome ≡ Outcome.answered false → AllGoOn (replies ++ r ∷ []) }
{}

/// A connection has been served where it ends in one of the ways, whatever the pass did before it.
pub fn connections_end()
    ensures answered { (m : Meaning) (k : ℕ) (at : Address) (seen longer : List Signed) (replies : List Reply) (own : List Placed) (left : List ℕ) (ended : Bool) (answered : ℕ) (again : List (List Placed)) (fixed : List ℕ) (way : Way) (cause : Cause) (first old now : Option Past)
        → ConnectionSoFar m k at replies own left ended answered first old → CausedBy cause way
        → now ≡ option_map (after_put fixed) old
        → ((before : List Placed) → IsPrefix (through k before) seen
        → EndsBy m k longer (before ++ (own ++ joined again)) at ended replies left again fixed way)
        → ConnectionServed m k at seen longer (own ++ joined again) (record { cause = cause; answered = answered; halted = finds_halt way }) first now }
    ensures quiet { (m : Meaning) (k : ℕ) (at : Address) (seen longer : List Signed) (replies : List Reply) (own : List Placed) (left : List ℕ) (ended : Bool) (answered : ℕ) (again : List (List Placed)) (way : Way) (cause : Cause) (first now : Option Past)
        → ConnectionSoFar m k at replies own left ended answered first now → CausedBy cause way
        → ((before : List Placed) → IsPrefix (through k before) seen
        → EndsBy m k longer (before ++ (own ++ joined again)) at ended replies left again [] way)
        → ConnectionServed m k at seen longer (own ++ joined again) (record { cause = cause; answered = answered; halted = finds_halt way }) first now }
{}

/// What is told of a lane goes on from nothing, with each connection that is accepted and served, to its last accept, which says
/// that no more comes or fails.
pub fn lanes_go_on()
    ensures starts { (m : Meaning) (k : ℕ) (history : List Signed) (faults : ℕ) (since : Option (List ℕ)) (p : Past)
        → LaneSoFar m k history [] faults faults 0 0 0 since since p p }
    ensures goes { (m : Meaning) (k : ℕ) (at : Address) (seen longer : List Signed) (own more : List Placed) (p q now : Past) (first faults accepted_at served_at answered cut halts : ℕ) (end : ConnectionEnd) (since then later : Option (List ℕ))
        → LaneSoFar m k seen own first faults answered cut halts since then p q
        → IsPrefix seen longer → IsPrefix (through k own) seen
        → faults ≤ accepted_at → HasRisen end.cause accepted_at served_at
        → ConnectionServed m k at seen longer more end (Some (after_accept (accepted.Connection at) q)) (Some now)
        → SinceAccept then (accepted.Connection at) later
        → ((serial : ℕ) → CameWith later serial → ConnectionKeepsUp serial k more end (Some (after_accept (accepted.Connection at) q)) (Some now))
        → LaneSoFar m k longer (own ++ more) first served_at (min (answered + end.answered) count_end) (cut_by end.cause cut) (halts + cond end.halted 1 0) since later p now }
    ensures ends { (m : Meaning) (k : ℕ) (history : List Signed) (own : List Placed) (p q : Past) (first faults later answered cut halts : ℕ) (since then : Option (List ℕ))
        → LaneSoFar m k history own first faults answered cut halts since then p q → faults ≤ later
        → LaneSoFar m k history own first later answered cut halts since then p (after_accept accepted.Ended q) }
    ensures fails { (m : Meaning) (k : ℕ) (history : List Signed) (own : List Placed) (p q : Past) (first faults later answered cut halts : ℕ) (since then : Option (List ℕ))
        → LaneSoFar m k history own first faults answered cut halts since then p q → faults ≤ later → Rose faults later
        → LaneSoFar m k history own first later answered cut halts since then p (after_accept accepted.Failed q) }
{}

/// Lanes that were served by passes of their own, of one legal history, tell of it together: each of its own pass, and all of
/// them in their counts.
pub fn lanes_tell_together()
    ensures { (m : Meaning) (history : List Signed) (slots : List ServedLane)
        → IsLegal history → ServedLanesFrom m history 1 slots
        → LanesTold m history (lanes_of slots) (min (sum_by (λ s. s.end.answered) slots) count_end) (min (sum_by (λ s. s.end.cut) slots) count_end) }
{}
