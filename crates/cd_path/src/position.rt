ghost use Rattle.std.specs.Prelude.{◌≡◌, ◌<◌, min, option_map, IfOk};
ghost use Rattle.std.specs.Char.{is_ascii_digit};
ghost use Rattle.std.specs.List.{list_all};
ghost use Rattle.cd_path.specs.Position.{position, place, digits_value, begins_well};

use crate::fault::EditFault;

/// The position that a part names, if it is below this bound.
pub(crate) fn place_of(bound: usize, part: &str) -> Result<usize, EditFault>
    ensures exact { result ≡ place bound part.now }
    ensures within { IfOk result (λ at. at < bound) }
{
    match capped_position(part, bound) {
        None => Err(EditFault::BadIndex),
        Some(at) if at < bound => Ok(at),
        Some(_) => Err(EditFault::OutOfBounds),
    }
}

/// The position that a part names, or the cap where it is more.
fn capped_position(part: &str, cap: usize) -> Option<usize>
    ensures { result ≡ option_map (λ n. min n cap) (position part.now) }
{
    let digits = part.as_bytes();
    if has_first_digit(digits) && are_digits(digits) {
        Some(capped_value(digits, cap))
    } else {
        None
    }
}

fn has_first_digit(digits: &[u8]) -> bool
    ensures { result ≡ begins_well digits.now }
{
    match digits {
        [] => false,
        [b'0', _, ..] => false,
        _ => true,
    }
}

fn are_digits(digits: &[u8]) -> bool
    ensures { result ≡ list_all is_ascii_digit digits.now }
{
    digits.iter().all(|digit| digit.is_ascii_digit())
}

fn capped_value(digits: &[u8], cap: usize) -> usize
    ensures { result ≡ min (digits_value digits.now) cap }
{
    let mut value = 0usize;
    for digit in digits {
        let units = digit.saturating_sub(b'0') as usize;
        value = value.saturating_mul(10).saturating_add(units);
    }
    value.min(cap)
}
