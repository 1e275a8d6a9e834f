//! Bytes are put on the connection of a lane.
ghost use Rattle.std.specs.Prelude.{◌≡◌, List, ℕ, true, option_map};
ghost use Rattle.cd_outside.specs.declared.given.Given.TheVariants as given;
ghost use Rattle.cd_outside.specs.Given.{IsGivenOf};
ghost use Rattle.cd_outside.specs.Past.{after_put};
ghost use Rattle.cd_session.specs.Keeping.{KeepsConnection};

use cd_outside::{Given, Lane};

/// Puts these bytes, which may be none, on the connection that is there.
pub fn put<L: Lane>(lane: &mut L, bytes: &[u8]) -> Given
    requires { L.busy lane.old ≡ true }
    ensures past { (part : List ℕ) × IsGivenOf result part bytes.now × (L.past lane.new ≡ option_map (after_put part) (L.past lane.old)) }
    ensures since { L.since lane.new ≡ L.since lane.old }
    ensures lane { KeepsConnection (result ≡ given.Failed) (L.busy lane.new) (L.faults lane.old) (L.faults lane.new) }
{
    if bytes.is_empty() {
        return Given::All;
    }
    lane.write(bytes)
}
