//! For which paths a route is.
ghost use Rattle.std.specs.Prelude.{◌≡◌, ◌≤◌, ℕ, List, true, IfOk, MatchOption, ⊤};
ghost use Rattle.std.specs.List.{list_any};
ghost use Rattle.cd_fill.specs.declared.scene.Scene.{Scene as SceneOf};
ghost use Rattle.cd_index.specs.Tables.{IsCandidate, Keeps};
ghost use Rattle.cd_match.specs.Holds.{holds, set_holds};
ghost use Rattle.cd_match.specs.Path.{path_holds};
ghost use Rattle.cd_match.specs.declared.path.PathPattern.{PathPattern as PathPatternOf};
ghost use Rattle.cd_module.specs.Patterns.{fits_in_any_case};

use cd_index::Table;
use cd_match::{Matcher, MatcherSet, PathMatcher, PathPattern, Sets};
use cd_module::Pattern;
use cd_text::NoMemory;

// A pattern without a `*` in front is a key: a path that fits it begins with its literal.
#[tactic(auto, using(crate::proofs::Beginnings::exact_begins, crate::proofs::Beginnings::prefix_begins))]
fn note_pattern(table: &mut Table, n: usize, pattern: &Pattern) -> Result<(), NoMemory>
    requires { table.old.top ≤ n }
    ensures top { IfOk result (λ _. table.new.top ≡ n) }
    ensures kept { IfOk result (λ _. Keeps table.old table.new) }
    ensures noted { IfOk result (λ _. (path : List ℕ) → fits_in_any_case pattern.now path ≡ true → IsCandidate table.new path n) }
{
    match pattern {
        Pattern::Exact(all) => table.add_key(n, all.as_slice())?,
        Pattern::Prefix(front) => table.add_key(n, front.as_slice())?,
        Pattern::Suffix(_) => table.add_free(n)?,
        Pattern::Part(_) => table.add_free(n)?,
    }
    Ok(())
}

fn note_patterns(table: &mut Table, n: usize, patterns: &[PathPattern]) -> Result<(), NoMemory>
    requires { table.old.top ≤ n }
    ensures top { IfOk result (λ _. table.new.top ≤ n) }
    ensures kept { IfOk result (λ _. Keeps table.old table.new) }
    ensures noted { IfOk result (λ _. (path : List ℕ) → list_any (λ (wanted : PathPatternOf). fits_in_any_case wanted.pattern path) patterns.now ≡ true → IsCandidate table.new path n) }
{
    for wanted in patterns {
        note_pattern(table, n, &wanted.pattern)?;
    }
    Ok(())
}

// The first matcher of paths in a set.
#[tactic(auto, unfolding(cd_match::specs::Holds::matcher_holds))]
fn path_matcher(set: &MatcherSet) -> Option<&PathMatcher>
    ensures { MatchOption result ⊤ (λ matcher. (x : SceneOf) → set_holds x set.now ≡ true → path_holds matcher.now x ≡ true) }
{
    for matcher in set.matchers.as_slice() {
        if let Matcher::Path(matcher) = matcher {
            return Some(matcher);
        }
    }
    None
}

fn note_set(table: &mut Table, n: usize, set: &MatcherSet) -> Result<(), NoMemory>
    requires { table.old.top ≤ n }
    ensures top { IfOk result (λ _. table.new.top ≤ n) }
    ensures kept { IfOk result (λ _. Keeps table.old table.new) }
    ensures noted { IfOk result (λ _. (x : SceneOf) → set_holds x set.now ≡ true → IsCandidate table.new x.current.path n) }
{
    match path_matcher(set) {
        None => table.add_free(n),
        Some(matcher) => note_patterns(table, n, matcher.patterns.as_slice()),
    }
}

/// Notes a number under the paths for which its matchers may hold.
#[tactic(auto, unfolding(cd_match::specs::Holds::holds))]
pub(crate) fn note(table: &mut Table, n: usize, matching: &Sets) -> Result<(), NoMemory>
    requires { table.old.top ≤ n }
    ensures top { IfOk result (λ _. table.new.top ≤ n) }
    ensures kept { IfOk result (λ _. Keeps table.old table.new) }
    ensures noted { IfOk result (λ _. (x : SceneOf) → holds matching.now x ≡ true → IsCandidate table.new x.current.path n) }
{
    if matching.sets.is_empty() {
        return table.add_free(n);
    }
    for set in matching.sets.as_slice() {
        note_set(table, n, set)?;
    }
    Ok(())
}
