//! What is done on a connection after each of its requests.
ghost use Rattle.std.specs.Prelude.{◌≡◌, ◌≤◌, Bool, List, ℕ};
ghost use Rattle.cd_outside.specs.declared.address.Address.{Address as At};
ghost use Rattle.cd_outside.specs.Counts.{Rose};
ghost use Rattle.cd_wire.specs.declared.request.Request.{Request as Asked};
ghost use Rattle.cd_wire.specs.Requests.{BeginsRequest};
ghost use Rattle.cd_session.specs.Ends.{RisesBy, HaltedBy};
ghost use Rattle.cd_proxy.specs.declared.answering.How.TheVariants as relayed;
ghost use Rattle.cd_gateway.specs.Stepping.{Moment, GoesOn, RelayedBetween, Steps};

use cd_proxy::How;
use cd_session::{Cause, ConnectionEnd, Session};

/// Goes on, or ends, after a request was relayed so.
pub(crate) fn after_request(session: &mut Session, how: How) -> Option<ConnectionEnd>
    ensures steps { (upstreams : List At) (q : Asked) (left : List ℕ) (first old now : Moment)
        → GoesOn upstreams left session.old.ended session.old.answered first old → BeginsRequest left q session.old.intake
        → RelayedBetween upstreams q how old now
        → Steps upstreams result session.new.intake session.new.ended session.new.answered first now }
    ensures cause { (before now : ℕ) → before ≤ now → (how ≡ relayed.Failed → Rose before now) → RisesBy result before now }
    ensures halted { (halted : Bool) → HaltedBy result halted }
{
    match how {
        How::Answered(close) => {
            session.answered = session.answered.saturating_add(1);
            if close {
                return Some(session.end(Cause::Whole));
            }
            None
        }
        How::Failed => Some(session.end(Cause::Failed)),
        How::NoMemory => Some(session.end(Cause::Lacking)),
    }
}
