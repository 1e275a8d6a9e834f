//! What the definitions mean, and how the promise of a run follows, each as a call that does nothing.
ghost use Rattle.std.specs.Prelude.{◌≡◌, ◌⊎◌, ◌≤◌, ◌++◌, ℕ, [], List, Option, Result, min, sum_by, false, true, length};
ghost use mathlib.Core.List.{IsPrefix};
ghost use Rattle.cd_outside.specs.declared.key.Key.{Key};
ghost use Rattle.cd_outside.specs.Counts.{count_end};
ghost use Rattle.cd_tree.specs.declared.tree.Tree.{Tree};
ghost use Rattle.cd_wire.specs.declared.request.Request.{Request};
ghost use Rattle.cd_module.specs.declared.fault.LoadFault.{LoadFault};
ghost use Rattle.cd_legal.specs.declared.entry.Entry.{Entry};
ghost use Rattle.cd_legal.specs.declared.entry.Signed.{Signed};
ghost use Rattle.cd_legal.specs.declared.plan.Plan.{Plan};
ghost use Rattle.cd_legal.specs.Calls.{failures};
ghost use Rattle.cd_legal.specs.Entry.{entries, mine};
ghost use Rattle.cd_legal.specs.Legal.{state_at, IsLegal};
ghost use Rattle.cd_legal.specs.Runs.{Failure};
ghost use Rattle.cd_life.specs.Fits.{AllFit};
ghost use Rattle.cd_gate.specs.declared.view.View.{View};
ghost use Rattle.cd_gate.specs.Growing.{all_signed};
ghost use Rattle.cd_serve.specs.Episodes.{another_halted};
ghost use Rattle.cd_serve.specs.Reports.{Span, ServedLane, ServedLanesFrom, LanesTold, NoneInterrupted, NoneRose, lanes_of};
ghost use Rattle.cd_serve.specs.Meanings.{Meaning};
ghost use Rattle.cd_host.specs.Firsts.{BeginsWith};
ghost use Rattle.cd_host.specs.OwnPass.{IsJoined, AreBetween};
ghost use Rattle.cd_host.specs.ServedLanes.{LanesFrom, AreAtEnd, AreUntouched};
ghost use Rattle.cd_host.specs.Parts.{HasParts, IsAlone, IsSignedByLanes, end_entries};
ghost use Rattle.cd_host.specs.Program.{Start, start_entries};
ghost use Rattle.cd_host.specs.Runs.{Observed, Ran};
ghost use Rattle.cd_host.specs.Unfailing.{HaveEnded};

use cd_legal::Stands;

/// When all passes have come together, nobody but the program has signed what it had seen after its start; and where its entries
/// then were those of its start, the history has its parts, and the host ran before the program's halt unless a lane has halted.
pub fn joined_passes_give_the_parts<T: Stands>()
    ensures alone { (v w y z : View T) (made : List Entry) (log : List Signed)
        → IsJoined v w y z made log → AreBetween w.seen y.seen log → IsAlone w.seen }
    ensures parts { (first : Tree) (plan : Plan) (start : Start) (v w y z : View T) (made : List Entry) (log : List Signed)
        → IsJoined v w y z made log → AreBetween w.seen y.seen log → made ≡ start_entries first plan start → HasParts first plan start log }
    ensures running { (first : Tree) (plan : Plan) (start : Start) (v w y z : View T) (made : List Entry) (log : List Signed)
        → IsJoined v w y z made log → AreBetween w.seen y.seen log → made ≡ start_entries first plan start → another_halted 0 log ≡ false
        → (state_at y.seen).halted ≡ false }
{}

/// The program's own entries in a history with its parts are those of its start and of its end.
pub fn the_program_signs_its_parts()
    ensures { (first : Tree) (plan : Plan) (start : Start) (history : List Signed) → (parts : HasParts first plan start history)
        → mine 0 history ≡ all_signed 0 (start_entries first plan start ++ end_entries (all_signed 0 (start_entries first plan start) ++ parts.lanes)) }
{}

/// What is known of each lane gives what all lanes tell together; none of them has signed the start, and none signs anything after
/// what the program has found.
pub fn lanes_come_together()
    ensures told { (m : Meaning) (start found history : List Signed) (slots : List ServedLane)
        → IsLegal history → IsPrefix found history → LanesFrom m start found history 1 slots
        → LanesTold m history (lanes_of slots) (min (sum_by (λ s. s.end.answered) slots) count_end) (min (sum_by (λ s. s.end.cut) slots) count_end) }
    ensures signed { (m : Meaning) (start found history : List Signed) (slots : List ServedLane)
        → IsPrefix start found → IsPrefix found history → LanesFrom m start found history 1 slots → IsSignedByLanes (length slots) history
        → AreBetween start found history }
    ensures ended { (m : Meaning) (start found history : List Signed) (slots : List ServedLane)
        → LanesFrom m start found history 1 slots → (state_at found).halted ≡ false → AreAtEnd (lanes_of slots) }
{}

/// Lanes that were not served tell of no connection, and have signed nothing.
pub fn untouched_lanes_tell_nothing()
    ensures signed { (start found history : List Signed)
        → IsPrefix start found → IsPrefix found history → IsAlone history → AreBetween start found history }
    ensures told { (m : Meaning) (history : List Signed) (lanes : List Span)
        → IsLegal history → IsAlone history → AreUntouched lanes → LanesTold m history lanes 0 0 }
{}

/// A lane that has halted the host has signed something, so the program is not alone.
pub fn a_lane_that_halts_is_not_alone()
    ensures { (history : List Signed) → another_halted 0 history ≡ true → ¬ (IsAlone history) }
{}

/// In a legal history that has its parts the first configuration has the tree that the program started with, where it was published,
/// or no lane has signed anything.
pub fn the_first_configuration_is_that_of_the_start()
    ensures { (first : Tree) (plan : Plan) (start : Start) (history : List Signed) → IsLegal history
        → (parts : HasParts first plan start history) → (start ≡ Start.published) ⊎ (parts.lanes ≡ [])
        → BeginsWith first (entries history) }
{}

/// Changes that are alike fit the same histories.
pub fn alike_changes_fit_alike()
    ensures { (plan : Tree → Result Plan LoadFault) (makes other : Tree → Request → Option Tree) (log : List Entry)
        → ((tree : Tree) (request : Request) → makes tree request ≡ other tree request)
        → AllFit plan makes log → AllFit plan other log }
{}

/// A history whose start was refused has a key that could not be opened.
pub fn a_refused_start_has_a_failed_key()
    ensures { (first : Tree) (plan : Plan) (failure : Failure) (key : Key) (history : List Signed)
        → HasParts first plan (Start.refused failure key) history → 1 ≤ failures (entries history) }
{}

/// What a run comes to where no fault of a lane rose and no connection lacked memory: of the connections that lanes tell of none was
/// interrupted, and none of their accepts failed. Where no lane has halted either, each of them tells that no more comes.
pub fn lanes_without_a_fault_are_not_interrupted()
    ensures uninterrupted { (m : Meaning) (history : List Signed) (lanes : List Span) (answered : ℕ) → (told : LanesTold m history lanes answered 0)
        → NoneRose lanes → NoneInterrupted told.reports }
    ensures ended { (m : Meaning) (first : Tree) (start : Start) (given : Observed) → (ran : Ran m first start true given)
        → NoneRose given.lanes → another_halted 0 ran.history ≡ false → HaveEnded given.lanes }
{}
