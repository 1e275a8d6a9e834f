ghost use Rattle.std.specs.Prelude.{◌≡◌, false, true, Some, None, option_map, if◌then◌else◌, MatchOption};
ghost use Rattle.std.specs.Float.{float_is_finite};
ghost use Rattle.fast_float.specs.Text.{scan};
ghost use Rattle.serde_json.specs.Read.{number_of, number_from};
ghost use Rattle.cd_tree.specs.Marked.{mark, marked_number};

use crate::tree::Num;
use fast_float::Numeral;

/// The number that a token of JSON writes, marked where it is not whole in range. `None` where it is beyond the range of a
/// 64-bit float.
pub(crate) fn marked_number(digits: &str) -> Option<Num>
    ensures { result ≡ option_map marked_number (number_of digits.now) }
{
    match after_minus(digits) {
        Some(size) => below_zero(size),
        None => from_zero(digits),
    }
}

/// What follows the sign of a number below zero.
fn after_minus(digits: &str) -> Option<&str>
    ensures { MatchOption result (number_of digits.now ≡ number_from false (scan digits.now))
        (λ size. number_of digits.now ≡ number_from true (scan size.now)) }
{
    digits.strip_prefix('-')
}

/// The number below zero of this size. Zero itself is no whole number here.
fn below_zero(size: &str) -> Option<Num>
    ensures { result ≡ option_map marked_number (number_from true (scan size.now)) }
{
    let numeral = Numeral::scan(size.as_bytes());
    match numeral.to_u64() {
        Some(size) if size != 0 && size <= 1 << 63 => Some(Num {
            negative: true,
            size,
        }),
        _ => mark_of(numeral.to_float::<f64>(true)),
    }
}

/// The number of this size.
fn from_zero(size: &str) -> Option<Num>
    ensures { result ≡ option_map marked_number (number_from false (scan size.now)) }
{
    let numeral = Numeral::scan(size.as_bytes());
    match numeral.to_u64() {
        Some(size) => Some(Num {
            negative: false,
            size,
        }),
        None => mark_of(numeral.to_float::<f64>(false)),
    }
}

/// The mark of a number that is read as this float, unless it is too large for one.
fn mark_of(value: f64) -> Option<Num>
    ensures { result ≡ (if float_is_finite value then Some mark else None) }
{
    if value.is_finite() {
        Some(Num {
            negative: true,
            size: 0,
        })
    } else {
        None
    }
}
