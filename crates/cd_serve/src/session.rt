//! What is done on a connection after each of its requests.
ghost use Rattle.std.specs.Prelude.{◌≡◌, ◌≤◌, Bool, List, ℕ, Some, Option, true};
ghost use Rattle.cd_outside.specs.declared.address.Address.{Address as At};
ghost use Rattle.cd_outside.specs.declared.past.Past.{Past};
ghost use Rattle.cd_outside.specs.Counts.{Rose};
ghost use Rattle.cd_wire.specs.declared.request.Request.{Request as Asked};
ghost use Rattle.cd_wire.specs.Requests.{BeginsRequest};
ghost use Rattle.cd_legal.specs.declared.limits.TheConstants.{MAX_BEGINS};
ghost use Rattle.cd_legal.specs.Begins.{begins_now};
ghost use Rattle.cd_legal.specs.Entry.{entries};
ghost use Rattle.cd_gate.specs.declared.view.View.{View};
ghost use Rattle.cd_serve.specs.declared.how.How.TheVariants as served;
ghost use Rattle.cd_serve.specs.Guarding.{IsCut, gives_none};
ghost use Rattle.cd_serve.specs.Meanings.{Meaning};
ghost use Rattle.cd_serve.specs.Requests.{RequestServed, is_fault};
ghost use Rattle.cd_serve.specs.Stepping.{GoesOn, Steps, RisesBy, HaltedBy};

use crate::how::How;
use cd_legal::Stands;
use cd_outside::{Given, Lane};
use cd_session::{Cause, ConnectionEnd, Session, put};
use cd_wire::refusal;

/// Goes on, or ends, after a request was served so. `T` is the board of the pass that served it.
pub(crate) fn after_request<T: Stands, L: Lane>(
    session: &mut Session,
    lane: &mut L,
    how: How,
) -> Option<ConnectionEnd>
    requires { L.busy lane.old ≡ true }
    ensures busy { L.busy lane.new ≡ true }
    ensures steps { (m : Meaning) (at : At) (q : Asked) (v w x : View T) (first old : Option Past) (left : List ℕ)
        → GoesOn m at left session.old.ended session.old.answered v w first old → BeginsRequest left q session.old.intake
        → RequestServed m at q how w x old (L.past lane.old) → (how ≡ served.Worn → MAX_BEGINS ≤ begins_now (entries x.seen))
        → Steps m at result session.new.intake session.new.ended session.new.answered v x first (L.past lane.new) }
    ensures since { L.since lane.new ≡ L.since lane.old }
    ensures unanswered { gives_none how ≡ true → IsCut result × (L.past lane.new ≡ L.past lane.old) }
    ensures cause { (before : ℕ) → before ≤ L.faults lane.old → (is_fault how ≡ true → Rose before (L.faults lane.old)) → RisesBy result before (L.faults lane.new) }
    ensures halted { (halted : Bool) → (how ≡ served.Halted → halted ≡ true) → HaltedBy result halted }
{
    match how {
        How::Answered(close) => {
            session.answered = session.answered.saturating_add(1);
            if close {
                return Some(session.end(Cause::Whole));
            }
            None
        }
        How::Unlogged => {
            session.answered = session.answered.saturating_add(1);
            Some(session.end(Cause::Failed))
        }
        How::Failed => Some(session.end(Cause::Failed)),
        How::NoMemory => Some(session.end(Cause::Lacking)),
        How::Dropped => Some(session.end(Cause::Whole)),
        How::Halted => Some(ConnectionEnd {
            cause: Cause::Whole,
            answered: session.answered,
            halted: true,
        }),
        How::Worn => match put(lane, refusal(503)) {
            Given::All => Some(session.end(Cause::Whole)),
            Given::Failed => Some(session.end(Cause::Failed)),
        },
    }
}
