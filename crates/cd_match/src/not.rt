//! The matcher `not`.
ghost use Rattle.cd_match.specs.Matchers.{sets};
ghost use Rattle.cd_match.specs.Not.{not_matcher};

use crate::matcher::MatcherSet;
use crate::reading::read_not;
use cd_module::{LoadFault, Settings};
use cd_text::List;
use cd_tree::{Place, Tree};
use std::alloc::Global;

/// Holds where none of its sets holds.
#[cycle(matchers)]
#[derive(Debug, Drop)]
pub struct NotMatcher {
    pub sets: List<MatcherSet>,
}

impl Settings for NotMatcher {
    ghost reader = { not_matcher sets };

    fn read(alloc: Global, tree: &Tree, at: &Place<'_>) -> Result<NotMatcher, LoadFault> {
        read_not(alloc, tree, at)
    }
}
