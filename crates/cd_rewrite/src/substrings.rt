//! The occurrences of a text in another, replaced.
ghost use Rattle.std.specs.Prelude.{◌≡◌, ◌<◌, ◌++◌, length, nat_lt, None, Some, MatchOption};
ghost use Rattle.cd_text.specs.Gives.{Gives};
ghost use Rattle.cd_fill.specs.declared.fault.FillFault.{FillFault};
ghost use Rattle.cd_fill.specs.declared.limits.TheConstants.{MAX_FILLED_BYTES};
ghost use Rattle.cd_fill.specs.Filling.{bounded};
ghost use Rattle.cd_rewrite.specs.Substrings.{around, replaced_up_to, substituted};

use cd_fill::{FillFault, MAX_FILLED_BYTES};
use cd_text::Octets;
use memchr::memmem;
use std::alloc::Global;

/// The text with the occurrences of `find` replaced, up to `limit` of them; 0 is no limit. `TooLong` exactly where that has more
/// than `MAX_FILLED_BYTES`.
#[tactic(auto, unfolding(crate::specs::Substrings::substituted))]
pub(crate) fn substituted(
    alloc: Global,
    find: &[u8],
    replace: &[u8],
    limit: u64,
    text: &[u8],
) -> Result<Octets, FillFault>
    ensures { Gives FillFault.NoMemory result (bounded (substituted find.now replace.now limit text.now)) }
{
    if find.is_empty() {
        return ended(Octets::new(alloc), text);
    }
    let most = if limit == 0 { text.len() as u64 } else { limit };
    replaced_up_to(alloc, most, find, replace, text)
}

fn replaced_up_to(
    alloc: Global,
    most: u64,
    find: &[u8],
    replace: &[u8],
    text: &[u8],
) -> Result<Octets, FillFault>
    requires { 0 < length find.now }
    ensures { Gives FillFault.NoMemory result (bounded (replaced_up_to most find.now replace.now text.now)) }
{
    let mut made = Octets::new(alloc);
    let mut left = text;
    for _ in 0..most {
        match around(find, left) {
            Some((before, behind)) => {
                made.append(before)?;
                made.append(replace)?;
                left = behind;
            }
            None => return ended(made, left),
        }
        // What is too long does not grow on.
        if is_too_long(&made) {
            return Err(FillFault::TooLong);
        }
    }
    ended(made, left)
}

// What was made, and behind it what stays as it is.
fn ended(made: Octets, left: &[u8]) -> Result<Octets, FillFault>
    ensures { Gives FillFault.NoMemory result (bounded (made ++ left.now)) }
{
    let mut made = made;
    made.append(left)?;
    if is_too_long(&made) {
        return Err(FillFault::TooLong);
    }
    Ok(made)
}

fn is_too_long(made: &Octets) -> bool
    ensures { result ≡ nat_lt MAX_FILLED_BYTES (length made.now) }
{
    made.len() > MAX_FILLED_BYTES
}

// What stands before the first occurrence, and what stands behind it.
fn around<'a>(find: &[u8], text: &'a [u8]) -> Option<(&'a [u8], &'a [u8])>
    requires { 0 < length find.now }
    ensures { MatchOption result (around find.now text.now ≡ None) (λ parts. around find.now text.now ≡ Some (parts.0.now, parts.1.now)) }
{
    match memmem::find(text, find) {
        Some(at) => Some((&text[..at], &text[at + find.len()..])),
        None => None,
    }
}
