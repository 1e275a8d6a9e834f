ghost use Rattle.std.specs.Prelude.{◌≡◌, ◌≢◌, ℕ, ◌<◌, ◌^◌, length, slice_index, IsTrue, ◌↔◌, IfOk, IfSome, IfNone, decimal};
ghost use Rattle.cd_text.specs.Numbers.{IsPlain};

use crate::{NoMemory, Text};
use std::alloc::Global;

/// The decimal text of a number: digits alone, without a leading zero but for `0` itself.
pub fn decimal(alloc: Global, number: u64) -> Result<Text, NoMemory>
    ensures { IfOk result (λ text. text ≡ decimal number) }
{
    Ok(Text::from_string(format!(in alloc; "{number}")?))
}

/// The number below 2^64 of which this is the decimal text. `None` for any other text: one with a sign, with a leading zero,
/// or of a number that is too large.
pub fn number_of(text: &str) -> Option<u64>
    ensures some { IfSome result (λ number. text.now ≡ decimal number) }
    ensures none { IfNone result ((number : ℕ) → number < 2 ^ 64 → text.now ≢ decimal number) }
{
    if !is_plain(text.as_bytes()) {
        return None;
    }
    match text.parse::<u64>() {
        Ok(number) => Some(number),
        Err(_) => None,
    }
}

// Whether the text begins as a decimal may: not with a plus, and with a zero only where that is all.
fn is_plain(text: &[u8]) -> bool
    ensures { IsTrue result ↔ IsPlain text.now }
{
    match text {
        [] => false,
        [b'+', ..] => false,
        [b'0', _, ..] => false,
        [_, ..] => true,
    }
}
