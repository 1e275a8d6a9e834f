//! The end of a request: it finishes, and its serial is retired where that is due.
ghost use Rattle.std.specs.Prelude.{◌≡◌, ◌⊎◌, ◌∷◌, [], ℕ, List, Some, None, IfSome, true, false};
ghost use mathlib.Core.List.{IsPrefix};
ghost use Rattle.cd_legal.specs.declared.entry.Entry.TheVariants.{Finish};
ghost use Rattle.cd_legal.specs.declared.entry.Signed.{Signed};
ghost use Rattle.cd_legal.specs.Legal.{state_at};
ghost use Rattle.cd_legal.specs.State.{has_number, ticket_of};
ghost use Rattle.cd_gate.specs.declared.view.View.{View};
ghost use Rattle.cd_gate.specs.Passes.{view};
ghost use Rattle.cd_hall.specs.Caches.{IsCacheOf};
ghost use Rattle.cd_hall.specs.Calls.{IsPassOf, duties_in};
ghost use Rattle.cd_hall.specs.Dues.{DueThen};
ghost use Rattle.cd_hall.specs.Tickets.{IsTicketOf};
ghost use Rattle.cd_hall.specs.Turned.{Turned};
ghost use Rattle.cd_serve.specs.Requests.{Concluded};

use cd_gate::Pass;
use cd_hall::{
    Cache, Duty, Hall, Ticket, caches_keep_their_configurations, turns_place_their_entries,
};
use cd_life::Board;
use cd_module_set::ModuleSet;
use cd_outside::Fixtures;
use std::mem::replace;
use std::sync::Wait;

/// Ends the request of the ticket, and does the duty that comes with its end. The configuration is kept for the next request, unless the
/// request has superseded it, or it is retired: it is let go then, so that a lane that rests does not keep its memory.
pub(crate) fn conclude<R: Wait, M: ModuleSet, F: Fixtures>(
    rt: &R,
    hall: &Hall<M, F>,
    ticket: Ticket<M>,
    pass: &mut Pass<Board<M, F>>,
    cache: &mut Cache<M>,
    superseded: bool,
)
    requires pass { IsPassOf hall.now pass.old }
    requires ticket { IsTicketOf (view pass.old) ticket }
    requires duties { (view pass.old).duties ≡ [] }
    ensures pass { IsPassOf hall.now pass.new }
    ensures cache { IsCacheOf (view pass.new) cache.new }
    ensures concluded { Concluded (view pass.old) (view pass.new) }
    ensures ticket { (view pass.new).ticket ≡ None }
    ensures draft { (view pass.new).draft ≡ (view pass.old).draft }
    ensures duties { (view pass.new).duties ≡ [] }
    ensures let_go { superseded ≡ true → cache.new.ticket ≡ None }
    ensures unretired { IfSome cache.new.ticket (λ kept. has_number kept.serial (state_at (view pass.new).seen).retired ≡ false) }
{
    let duty = hall.finish_now(ticket, cache, pass);
    let_go_where(cache, superseded, &duty);
    caches_keep_their_configurations::<Board<M, F>, M>(cache);
    retire_due(rt, hall, duty, pass);
}

// Lets the configuration of the cache go where it is superseded, as its duty also says. The pass has no turn, so nobody waits for that.
fn let_go_where<M: ModuleSet>(cache: &mut Cache<M>, superseded: bool, duty: &Option<Duty>)
    ensures superseded { superseded ≡ true → cache.new.ticket ≡ None }
    ensures due { IfSome duty.now (λ _. cache.new.ticket ≡ None) }
    ensures kept { (cache.new.ticket ≡ None) ⊎ (cache.new ≡ cache.old) }
{
    if superseded {
        let_go(cache);
        return;
    }
    match duty {
        Some(_) => let_go(cache),
        None => {}
    }
}

fn let_go<M: ModuleSet>(cache: &mut Cache<M>)
    ensures { cache.new.ticket ≡ None }
{
    replace(cache, Cache::empty()).end();
}

/// Does the duty that came with the end of a request, where one came. Then none is left.
pub(crate) fn retire_due<R: Wait, M: ModuleSet, F: Fixtures>(
    rt: &R,
    hall: &Hall<M, F>,
    duty: Option<Duty>,
    pass: &mut Pass<Board<M, F>>,
)
    requires pass { IsPassOf hall.now pass.old }
    requires duties { (view pass.old).duties ≡ duties_in duty }
    ensures pass { IsPassOf hall.now pass.new }
    ensures seen { IsPrefix (view pass.old).seen (view pass.new).seen }
    ensures quiet { duty ≡ None → (view pass.new).seen ≡ (view pass.old).seen }
    ensures concluded { (v : View _) (serial : ℕ) (found : List Signed) → Turned v (view pass.old) found (Finish v.number ∷ [])
        → ticket_of v.number (state_at found).tickets ≡ Some serial → DueThen (state_at found) serial (duties_in duty) → Concluded v (view pass.new) }
    ensures ticket { (view pass.new).ticket ≡ (view pass.old).ticket }
    ensures draft { (view pass.new).draft ≡ (view pass.old).draft }
    ensures duties { (view pass.new).duties ≡ [] }
{
    turns_place_their_entries::<Board<M, F>>();
    match duty {
        Some(duty) => hall.retire(rt, duty, pass),
        None => {}
    }
}
