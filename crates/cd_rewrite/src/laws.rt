//! What replacing means in the words of the rule, as a call that does nothing.
ghost use Rattle.std.specs.Prelude.{◌≡◌, ◌<◌, ◌+◌, ℕ, List, [], ◌++◌, length};
ghost use Rattle.cd_rewrite.specs.Substrings.{IsAbsent, IsBeforeFirst, substituted};

/// Occurrences of a text are replaced from left to right (Caddy documentation, handler `rewrite`, `uri_substring`). The first one is
/// replaced, and what follows it is treated by itself, with one less to be replaced where there is a limit. So no occurrence is
/// left between two that were replaced, none overlaps another, and what is written in their place is never looked at. After the
/// last one that a limit allows, everything stays as it is. So does a text without an occurrence, and every text where nothing
/// is looked for.
pub fn occurrences_are_replaced()
    ensures each { (find replace before after : List ℕ) → 0 < length find → IsBeforeFirst find before
        → substituted find replace 0 (before ++ (find ++ after)) ≡ before ++ (replace ++ substituted find replace 0 after) }
    ensures limited { (find replace before after : List ℕ) (limit : ℕ) → 0 < length find → IsBeforeFirst find before → 0 < limit
        → substituted find replace (1 + limit) (before ++ (find ++ after)) ≡ before ++ (replace ++ substituted find replace limit after) }
    ensures last { (find replace before after : List ℕ) → 0 < length find → IsBeforeFirst find before
        → substituted find replace 1 (before ++ (find ++ after)) ≡ before ++ (replace ++ after) }
    ensures absent { (find replace text : List ℕ) (limit : ℕ) → IsAbsent find text → substituted find replace limit text ≡ text }
    ensures nothing { (replace text : List ℕ) (limit : ℕ) → substituted [] replace limit text ≡ text }
{}
