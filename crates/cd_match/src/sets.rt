use crate::matcher::MatcherSet;
use cd_text::List;

/// A route's `match`: one of the sets is to hold, where there are any.
#[derive(Debug, Drop)]
pub struct Sets {
    pub sets: List<MatcherSet>,
}
