ghost use Rattle.std.specs.Prelude.{◌≡◌, ◌<◌, ◌≤◌, true, length, take, option_map};
ghost use Rattle.cd_outside.specs.declared.given.Given.TheVariants.{All, Failed};
ghost use Rattle.cd_outside.specs.Counts.{Rises};
ghost use Rattle.cd_outside.specs.Given.{IsGivenOf};
ghost use Rattle.cd_outside.specs.Past.{after_put};

use crate::{Given, Lane};

/// A lane that says how much of a piece was given, also where the write failed.
pub trait Gives: Lane {
    /// Writes the piece as `write` does, and says how many of its bytes were given, from its front. Fewer than all are a failure.
    fn give(&mut self, piece: &[u8]) -> usize
        requires busy { Self.busy self.old ≡ true }
        requires some { 0 < length piece.now }
        ensures busy { Self.busy self.new ≡ true }
        ensures bound { result ≤ length piece.now }
        ensures past { Self.past self.new ≡ option_map (after_put (take result piece.now)) (Self.past self.old) }
        ensures cause { Rises (Self.faults self.old) (Self.faults self.new) (result < length piece.now) };
}

/// What a write answers that gave so many bytes of the piece.
pub fn given_of(count: usize, piece: &[u8]) -> Given
    requires { count ≤ length piece.now }
    ensures part { IsGivenOf result (take count piece.now) piece.now }
    ensures all { result ≡ All → count ≡ length piece.now }
    ensures fewer { result ≡ Failed → count < length piece.now }
{
    if count == piece.len() {
        Given::All
    } else {
        Given::Failed
    }
}
