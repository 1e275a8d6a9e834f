ghost use Rattle.std.specs.Prelude.{◌≡◌, Ok};
ghost use Rattle.cd_module.specs.Bare.{bare};
ghost use Rattle.cd_module.specs.Settings.{list_of};
ghost use Rattle.cd_match.specs.Matchers.{matcher, matcher_set, route_sets, sets};
ghost use Rattle.cd_match.specs.Names.{matcher_name};
ghost use Rattle.cd_match.specs.declared.matcher.Matcher.{Matcher};

use cd_text::Text;
use cd_tree::{Path, Tree};

/// The sets of a `not` are read as those of a route are.
pub fn sets_are_read_alike(tree: &Tree, at: &Path)
    ensures { sets tree.now at.now ≡ list_of (matcher_set sets) tree.now at.now }
{
    let _ = tree;
    let _ = at;
}

/// Ids make no difference to a route's `match`: trees that differ in ids alone are read alike, with the same sets or the same
/// first fault.
pub fn sets_see_no_ids(tree: &Tree, other: &Tree, at: &Path)
    ensures { bare tree.now ≡ bare other.now → route_sets tree.now at.now ≡ route_sets other.now at.now }
{
    let _ = tree;
    let _ = other;
    let _ = at;
}

/// A matcher that was read under a name has that name.
pub fn matchers_have_their_names(name: &Text, tree: &Tree, at: &Path)
    ensures { (read : Matcher) → matcher sets name.now tree.now at.now ≡ Ok read → matcher_name read ≡ name.now }
{
    let _ = name;
    let _ = tree;
    let _ = at;
}
