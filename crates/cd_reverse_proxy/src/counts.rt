ghost use Rattle.std.specs.Prelude.{◌≡◌, ◌+◌, min};
ghost use Rattle.cd_outside.specs.Counts.{count_end};

use cd_session::{Counts, LaneEnd};

/// Adds what was counted of one lane to what was counted of others. Each count stays at 2^64 - 1.
pub fn add_lane(sums: &mut Counts, end: LaneEnd)
    ensures answered { sums.new.answered ≡ min (sums.old.answered + end.answered) count_end }
    ensures cut { sums.new.cut ≡ min (sums.old.cut + end.cut) count_end }
{
    sums.answered = sums.answered.saturating_add(end.answered);
    sums.cut = sums.cut.saturating_add(end.cut);
}
