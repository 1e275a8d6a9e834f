//! Texts in which a `*` stands for any bytes.
ghost use Rattle.std.specs.Prelude.{◌≡◌, ◌-◌, IfOk, length, take, drop, nat_eq};
ghost use Rattle.std.specs.List.{starts_with, ends_with};
ghost use Rattle.std.specs.Str.{str_eq_ignore_ascii_case, str_to_ascii_lowercase};
ghost use Rattle.cd_module.specs.Patterns.{star_first, star_last, but_last, behind_star, pattern_of, pattern, literal, stands_in, lowered, fits, fits_in_any_case};

use crate::fault::{LoadFault, LoadKind};
use crate::settings::Settings;
use cd_text::{NoMemory, Octets};
use cd_tree::{Place, Tree};
use std::alloc::Global;

/// A text in which a `*` at the start, at the end or at both stands for any bytes, as in Caddy's matchers `path` and `header`.
/// A `*` elsewhere stands for itself.
#[derive(Debug, Drop)]
pub enum Pattern {
    /// The text itself: no `*` at its ends.
    Exact(Octets),
    /// `TEXT*`: what begins so.
    Prefix(Octets),
    /// `*TEXT`: what ends so. `*` alone is the empty suffix, which each text has.
    Suffix(Octets),
    /// `*TEXT*`: what has it somewhere.
    Part(Octets),
}

fn but_last(text: &[u8]) -> &[u8]
    ensures { result.now ≡ but_last text.now }
{
    &text[..text.len().saturating_sub(1)]
}

fn behind_star(alloc: Global, rest: &[u8]) -> Result<Pattern, NoMemory>
    ensures { IfOk result (λ made. made ≡ behind_star rest.now) }
{
    if rest.ends_with(b"*") {
        Ok(Pattern::Part(Octets::from_slice(alloc, but_last(rest))?))
    } else {
        Ok(Pattern::Suffix(Octets::from_slice(alloc, rest)?))
    }
}

// Its first bytes.
fn front(text: &[u8], count: usize) -> &[u8]
    ensures { result.now ≡ take count text.now }
{
    if count < text.len() {
        &text[..count]
    } else {
        text
    }
}

// Its last bytes.
fn end(text: &[u8], count: usize) -> &[u8]
    ensures { result.now ≡ drop (length text.now - count) text.now }
{
    &text[text.len().saturating_sub(count)..]
}

fn but_first(text: &[u8]) -> &[u8]
    ensures { result.now ≡ drop 1 text.now }
{
    if text.is_empty() { text } else { &text[1..] }
}

// Where the part stands in the text, at its start or further on.
fn stands_in(part: &[u8], text: &[u8]) -> bool
    ensures { result ≡ stands_in part.now text.now }
{
    let mut rest = text;
    while !rest.starts_with(part) {
        if rest.is_empty() {
            return false;
        }
        rest = but_first(rest);
    }
    true
}

// Whether both are the same, where the case of ASCII letters does not count. Bytes are the same as they stand more often than
// in another case, so this is asked first.
fn same_in_any_case(one: &[u8], other: &[u8]) -> bool
    ensures { result ≡ str_eq_ignore_ascii_case one.now other.now }
{
    let (mut left, mut right) = (one, other);
    while let ([a, others @ ..], [b, behind @ ..]) = (left, right) {
        if a != b && !a.eq_ignore_ascii_case(b) {
            return false;
        }
        left = others;
        right = behind;
    }
    left.is_empty() && right.is_empty()
}

/// Whether a text begins so, where the case of ASCII letters does not count. It takes no memory.
pub fn starts_in_any_case(text: &[u8], start: &[u8]) -> bool
    ensures { result ≡ starts_with nat_eq (str_to_ascii_lowercase text.now) (str_to_ascii_lowercase start.now) }
{
    same_in_any_case(start, front(text, start.len()))
}

/// Whether a text ends so, where the case of ASCII letters does not count. It takes no memory.
pub fn ends_in_any_case(text: &[u8], ending: &[u8]) -> bool
    ensures { result ≡ ends_with nat_eq (str_to_ascii_lowercase text.now) (str_to_ascii_lowercase ending.now) }
{
    same_in_any_case(ending, end(text, ending.len()))
}

// The same as `stands_in`, with case ignored.
fn stands_in_any_case(part: &[u8], text: &[u8]) -> bool
    ensures { result ≡ stands_in (str_to_ascii_lowercase part.now) (str_to_ascii_lowercase text.now) }
{
    let mut rest = text;
    while !starts_in_any_case(rest, part) {
        if rest.is_empty() {
            return false;
        }
        rest = but_first(rest);
    }
    true
}

impl Pattern {
    /// The pattern that a text writes.
    #[tactic(auto, unfolding(crate::specs::Patterns::pattern_of))]
    pub fn of(alloc: Global, text: &[u8]) -> Result<Pattern, NoMemory>
        ensures { IfOk result (λ made. made ≡ pattern_of text.now) }
    {
        if text.starts_with(b"*") {
            behind_star(alloc, &text[1..])
        } else if text.ends_with(b"*") {
            Ok(Pattern::Prefix(Octets::from_slice(alloc, but_last(text))?))
        } else {
            Ok(Pattern::Exact(Octets::from_slice(alloc, text)?))
        }
    }

    /// What is to stand in a text that fits, without the `*` at its ends. It takes no memory.
    pub fn literal(&self) -> &[u8]
        ensures { result.now ≡ literal self.now }
    {
        match self {
            Pattern::Exact(all) => all.as_slice(),
            Pattern::Prefix(front) => front.as_slice(),
            Pattern::Suffix(end) => end.as_slice(),
            Pattern::Part(part) => part.as_slice(),
        }
    }

    /// Whether the text fits, where case counts. It takes no memory.
    #[tactic(auto, unfolding(crate::specs::Patterns::fits))]
    pub fn fits(&self, text: &[u8]) -> bool
        ensures { result ≡ fits self.now text.now }
    {
        match self {
            Pattern::Exact(all) => text == all.as_slice(),
            Pattern::Prefix(front) => text.starts_with(front.as_slice()),
            Pattern::Suffix(end) => text.ends_with(end.as_slice()),
            Pattern::Part(part) => stands_in(part.as_slice(), text),
        }
    }

    /// Whether the text fits, where the case of ASCII letters does not count. It takes no memory.
    #[tactic(auto, unfolding(crate::specs::Patterns::fits))]
    pub fn fits_in_any_case(&self, text: &[u8]) -> bool
        ensures { result ≡ fits_in_any_case self.now text.now }
    {
        match self {
            Pattern::Exact(all) => same_in_any_case(text, all.as_slice()),
            Pattern::Prefix(front) => starts_in_any_case(text, front.as_slice()),
            Pattern::Suffix(end) => ends_in_any_case(text, end.as_slice()),
            Pattern::Part(part) => stands_in_any_case(part.as_slice(), text),
        }
    }
}

impl Settings for Pattern {
    ghost reader = { pattern };

    #[tactic(auto, unfolding(crate::specs::Patterns::pattern))]
    fn read(alloc: Global, tree: &Tree, at: &Place<'_>) -> Result<Pattern, LoadFault> {
        match tree {
            Tree::Text(text) => Ok(Pattern::of(alloc, text.as_str().as_bytes())?),
            _ => Err(LoadFault::at(alloc, LoadKind::WrongKind, at)),
        }
    }
}
