//! What a pass has made in a turn, step by step, and what the beginning and the end of a request are; each as a call that does nothing.
ghost use Rattle.std.specs.Prelude.{◌≡◌, ◌<◌, ◌++◌, ◌∷◌, [], ℕ, Bool, List, Some, cond, true, false};
ghost use mathlib.Core.List.{IsPrefix};
ghost use Rattle.cd_legal.specs.declared.entry.Entry.{Entry};
ghost use Rattle.cd_legal.specs.declared.entry.Entry.TheVariants.{Begin, Finish, Retire};
ghost use Rattle.cd_legal.specs.declared.entry.Signed.{Signed};
ghost use Rattle.cd_legal.specs.declared.state.State.{State};
ghost use Rattle.cd_legal.specs.Begins.{begins_now};
ghost use Rattle.cd_legal.specs.Calls.{fixture_calls, failures};
ghost use Rattle.cd_legal.specs.Entry.{signed, entries};
ghost use Rattle.cd_legal.specs.Laws.{core_at};
ghost use Rattle.cd_legal.specs.Legal.{state_at};
ghost use Rattle.cd_legal.specs.Placed.{Placed, placed_entries};
ghost use Rattle.cd_legal.specs.Serials.{last_conf, publishings};
ghost use Rattle.cd_legal.specs.Signing.{IsHistory};
ghost use Rattle.cd_legal.specs.State.{open_at, ticket_of};
ghost use Rattle.cd_gate.specs.declared.view.View.{View};
ghost use Rattle.cd_gate.specs.Counts.{begins_in};
ghost use Rattle.cd_gate.specs.Growing.{Places, all_signed};
ghost use Rattle.cd_gate.specs.Steps.{with_turn, without_turn, checking, worn, noted, superseded, settled};
ghost use Rattle.cd_gate.specs.Tables.{Found, FoundInTurn, Begins, Ends};
ghost use Rattle.cd_hall.specs.Caches.{IsCacheOf};
ghost use Rattle.cd_hall.specs.Dues.{is_last_at, DueAtEnd, DueLater, DueThen, LastEnd, MayRetireAll, SettledAfter};
ghost use Rattle.cd_hall.specs.Requests.{BegunNow};
ghost use Rattle.cd_hall.specs.Since.{Since};
ghost use Rattle.cd_hall.specs.Spread.{Spread};
ghost use Rattle.cd_hall.specs.Tickets.{HasConfiguration, IsTicketOf, HasBegun};
ghost use Rattle.cd_hall.specs.Turned.{Turned, placed_behind};

use crate::cache::Cache;
use crate::hall::Ticket;
use cd_legal::Stands;
use cd_module_set::ModuleSet;

/// A turn begins with no entry. Each step that adds one adds it right after the history that the step met.
pub fn turns_go_on_by_steps<T: Stands>()
    ensures entered { (v : View T) (log : List Signed) → Found v log → Since v (with_turn v log) log [] }
    ensures checked { (v w : View T) (found log : List Signed) → Since v w found [] → Found w log → Since v (checking w log) log [] × Since v (worn w log) log [] }
    ensures begun { (v w x : View T) (serial : ℕ) (found log : List Signed) (added : List Placed) → Since v w found added → Begins w x serial log →
        (now : List Signed) × Since v x now (added ++ record { before = log; entry = Begin w.number serial } ∷ []) }
    ensures noted { (v w : View T) (found log : List Signed) (added : List Placed) (e : Entry) → Since v w found added → FoundInTurn w log →
        IsHistory (log ++ signed w.number e ∷ []) → (now : List Signed) × Since v (noted w log e) now (added ++ record { before = log; entry = e } ∷ []) }
    ensures superseded { (v w : View T) (found log : List Signed) (added : List Placed) (e : Entry) (n begins : ℕ) → Since v w found added → FoundInTurn w log →
        IsHistory (log ++ signed w.number e ∷ []) → (now : List Signed) × Since v (superseded w log e n begins) now (added ++ record { before = log; entry = e } ∷ []) }
    ensures settled { (v w : View T) (found : List Signed) (added : List Placed) (n : ℕ) (due : Bool) → Since v w found added → Since v (settled w n due) found added }
{}

/// Once the turn is left, what was made in it is spread over the history by places, and begins right after what was found. One entry
/// alone, or none, stands at its end.
pub fn turns_spread_what_they_made<T: Stands>()
    ensures spread { (v w : View T) (found : List Signed) (added : List Placed) → Since v w found added → v.turn ≡ false → w.checked ≡ v.checked → w.ready ≡ v.ready →
        w.unsettled ≡ v.unsettled → Spread v (without_turn w) found (placed_entries added) }
    ensures one { (v w : View T) (found : List Signed) (p : Placed) → Since v w found (p ∷ []) → Spread v (without_turn w) found (p.entry ∷ []) → Turned v (without_turn w) found (p.entry ∷ []) }
    ensures none { (v w : View T) (found : List Signed) → Since v w found [] → Spread v (without_turn w) found [] → Turned v (without_turn w) found [] }
{}

/// The beginning of a request that waits for nobody is one entry, under the serial that is current then. A look that finds no room
/// makes none, and what it has counted is what the history says.
pub fn the_beginning_of_a_request_is_one_entry<T: Stands>()
    ensures turned { (v w : View T) (serial : ℕ) (log : List Signed) → BegunNow v w serial log → v.checked ≡ false → Turned v w log (Begin v.number serial ∷ []) × (serial ≡ (state_at log).serial) }
    ensures worn { (v w : View T) (log : List Signed) → Found v log → w ≡ worn v log → Turned v w log [] }
    ensures counted { (log : List Signed) → IsHistory log → begins_in log (state_at log).serial ≡ begins_now (entries log) }
{}

/// The end of a request is one entry, and its duty is the one that the state before it asks for. Its serial may then be retired.
pub fn the_end_of_a_request_is_one_entry<T: Stands>()
    ensures turned { (v w : View T) (serial : ℕ) (due : Bool) (log : List Signed) → Ends v w serial due log → Turned v w log (Finish v.number ∷ []) }
    ensures duty { (v w : View T) (serial : ℕ) (due : Bool) (log : List Signed) → Ends v w serial due log → DueThen (state_at log) serial (cond due (serial ∷ []) []) }
    ensures may { (v w : View T) (serial : ℕ) (due : Bool) (log : List Signed) → Ends v w serial due log → MayRetireAll (state_at w.seen) (cond due (serial ∷ []) []) }
{}

/// In one history two ends of requests that both give the duty of a serial are the same entry of the same pass.
pub fn one_end_gives_the_duty_of_a_serial<T: Stands>()
    ensures { (v w x y : View T) (found other log : List Signed) (n : ℕ) → Turned v w found (Finish v.number ∷ []) → Turned x y other (Finish x.number ∷ []) →
        IsHistory log → IsPrefix w.seen log → IsPrefix y.seen log → ticket_of v.number (state_at found).tickets ≡ Some n → ticket_of x.number (state_at other).tickets ≡ Some n →
        MayRetireAll (state_at w.seen) (n ∷ []) → MayRetireAll (state_at y.seen) (n ∷ []) → (found ≡ other) × (v.number ≡ x.number) }
{}

/// Of a halt, and the ends of requests under the serial that it superseded, just one gives the duty of that serial: the halt, where
/// none runs when it is settled, or the last end. So it is in each history that begins with the one after which it was settled, where
/// an end says rightly whether this was before it.
pub fn a_halt_or_the_last_end_gives_the_duty<T: Stands>()
    ensures last { (w x y : View T) (other log : List Signed) (n : ℕ) (done : Bool) (gives ends : List ℕ) (halt : DueLater w.seen n gives) → Turned x y other (Finish x.number ∷ []) →
        IsHistory log → IsPrefix halt.later log → IsPrefix y.seen log → ticket_of x.number (state_at other).tickets ≡ Some n →
        DueAtEnd (state_at other) n done ends → SettledAfter halt.later other done → is_last_at (state_at other) n ≡ true → gives ++ ends ≡ n ∷ [] }
    ensures others { (s : State) (n : ℕ) (done : Bool) (ends : List ℕ) → DueAtEnd s n done ends → is_last_at s n ≡ false → ends ≡ [] }
    ensures at_once { (w : View T) (n : ℕ) (gives : List ℕ) → DueLater w.seen n gives → n < (state_at w.seen).serial → open_at n (state_at w.seen).tickets ≡ 0 → gives ≡ n ∷ [] }
    ensures there { (seen log : List Signed) (n : ℕ) → IsHistory log → IsPrefix seen log → n < (state_at seen).serial →
        0 < open_at n (state_at seen).tickets → open_at n (state_at log).tickets ≡ 0 → LastEnd n seen log }
{}

/// A serial is retired once: two passes that both had its duty could not both retire it.
pub fn a_serial_is_retired_once()
    ensures { (one two log : List Signed) (j k n : ℕ) → IsHistory log → IsPrefix (one ++ signed j (Retire n) ∷ []) log → IsPrefix (two ++ signed k (Retire n) ∷ []) log → (one ≡ two) × (j ≡ k) }
{}

/// Without Begin and Finish a history is one too, and has the same calls of fixtures, failed keys, publishings, and configuration.
pub fn requests_leave_all_else()
    ensures history { (log : List Signed) → IsHistory log → IsHistory (core_at log) }
    ensures calls { (log : List Signed) → fixture_calls (entries (core_at log)) ≡ fixture_calls (entries log) }
    ensures failures { (log : List Signed) → failures (entries (core_at log)) ≡ failures (entries log) }
    ensures publishings { (log : List Signed) → publishings (entries (core_at log)) ≡ publishings (entries log) }
    ensures conf { (log : List Signed) → last_conf (entries (core_at log)) ≡ last_conf (entries log) }
{}

/// The entries that a call made in a turn of its own stand one after another, right after the history that it found.
pub fn turns_place_their_entries<T: Stands>()
    ensures places { (v w : View T) (found : List Signed) (made : List Entry) → Turned v w found made → Places v w (placed_behind v.number found made) }
    ensures entries { (k : ℕ) (found : List Signed) (made : List Entry) → placed_entries (placed_behind k found made) ≡ made }
{}

/// What a call made in a turn of its own is spread over the history by places too, and begins with what was found. Where nobody else
/// has made an entry, the call found what its pass had seen.
pub fn turns_spread_their_entries<T: Stands>()
    ensures spreads { (v w : View T) (found : List Signed) (made : List Entry) → Turned v w found made → Spread v w found made }
    ensures found { (v w : View T) (found : List Signed) (made : List Entry) → Spread v w found made → IsPrefix found w.seen }
    ensures alone { (v w : View T) (found : List Signed) (made : List Entry) → Spread v w found made → w.seen ≡ v.seen ++ all_signed v.number made → found ≡ v.seen }
{}

/// While the history grows, a ticket keeps the configuration of its serial, and is that of its pass until this ends the request.
pub fn tickets_keep_their_configurations<T: Stands, M: ModuleSet>(ticket: &Ticket<M>)
    ensures conf { (v w : View T) → HasConfiguration v ticket.now → IsPrefix v.seen w.seen → IsHistory w.seen → HasConfiguration w ticket.now }
    ensures own { (v w : View T) → IsTicketOf v ticket.now → IsPrefix v.seen w.seen → IsHistory w.seen → w.ticket ≡ v.ticket → IsTicketOf w ticket.now }
{
    let _ = ticket;
}

/// A request that began without waiting began under its ticket, whether it was had at once or later, when nothing was made since.
pub fn requests_begin_under_their_tickets<T: Stands, M: ModuleSet>(ticket: &Ticket<M>)
    ensures at_once { (v w : View T) (log : List Signed) → BegunNow v w ticket.now.serial log → v.checked ≡ false → IsTicketOf w ticket.now → (begin : Placed) × HasBegun v w ticket.now begin }
    ensures later { (v w x : View T) (log found : List Signed) → BegunNow v w ticket.now.serial log → v.checked ≡ false → Turned w x found [] → IsTicketOf x ticket.now → (begin : Placed) × HasBegun v x ticket.now begin }
{
    let _ = ticket;
}

/// While the history grows, what a cache has is the configuration of its serial.
pub fn caches_keep_their_configurations<T: Stands, M: ModuleSet>(cache: &Cache<M>)
    ensures { (v w : View T) → IsCacheOf v cache.now → IsPrefix v.seen w.seen → IsHistory w.seen → IsCacheOf w cache.now }
{
    let _ = cache;
}
