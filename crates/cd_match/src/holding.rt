//! Whether matchers hold.
ghost use Rattle.std.specs.Prelude.{◌≡◌, IfOk};
ghost use Rattle.std.specs.List.{list_any};
ghost use Rattle.cd_match.specs.Holds.{holds, set_holds, matcher_holds};

use crate::matcher::{Matcher, MatcherSet};
use crate::sets::Sets;
use cd_fill::Scene;
use cd_text::NoMemory;
use std::alloc::Global;

impl Sets {
    /// Whether some set holds, or there is none.
    #[tactic(auto, unfolding(crate::specs::Holds::holds))]
    pub fn holds(&self, alloc: Global, scene: &Scene<'_>) -> Result<bool, NoMemory>
        ensures { IfOk result (λ answer. answer ≡ holds self.now scene.now) }
    {
        if self.sets.is_empty() {
            return Ok(true);
        }
        some_holds(alloc, self.sets.as_slice(), scene)
    }
}

#[cycle(holding)]
fn some_holds(alloc: Global, sets: &[MatcherSet], scene: &Scene<'_>) -> Result<bool, NoMemory>
    ensures { IfOk result (λ answer. answer ≡ list_any (set_holds scene.now) sets.now) }
{
    for set in sets {
        if set_holds(alloc, set, scene)? {
            return Ok(true);
        }
    }
    Ok(false)
}

// Most routes are told apart by their paths alone, so these are tested in place.
#[cycle(holding)]
#[tactic(auto, unfolding(crate::specs::Holds::matcher_holds))]
fn set_holds(alloc: Global, set: &MatcherSet, scene: &Scene<'_>) -> Result<bool, NoMemory>
    ensures { IfOk result (λ answer. answer ≡ set_holds scene.now set.now) }
{
    for matcher in set.matchers.as_slice() {
        let holds = match matcher {
            Matcher::Path(matcher) => matcher.holds(scene),
            _ => matcher_holds(alloc, matcher, scene)?,
        };
        if !holds {
            return Ok(false);
        }
    }
    Ok(true)
}

#[cycle(holding)]
#[inline(never)]
#[tactic(auto, unfolding(crate::specs::Holds::matcher_holds))]
fn matcher_holds(alloc: Global, matcher: &Matcher, scene: &Scene<'_>) -> Result<bool, NoMemory>
    ensures { IfOk result (λ answer. answer ≡ matcher_holds scene.now matcher.now) }
{
    match matcher {
        Matcher::Host(matcher) => Ok(matcher.holds(scene)),
        Matcher::Path(matcher) => Ok(matcher.holds(scene)),
        Matcher::Method(matcher) => Ok(matcher.holds(scene)),
        Matcher::Header(matcher) => Ok(matcher.holds(scene)),
        Matcher::Query(matcher) => Ok(matcher.holds(scene)),
        Matcher::Vars(matcher) => matcher.holds(alloc, scene),
        Matcher::Not(matcher) => {
            let any = some_holds(alloc, matcher.sets.as_slice(), scene)?;
            Ok(!any)
        }
    }
}
