ghost use Rattle.std.specs.Prelude.{◌≡◌};

/// The hexadecimal digits of a SHA-256 digest.
pub const HEX_DIGITS: usize = 64;

/// The bytes of a tag before its path: `"/config/`.
pub(crate) const OPENING_BYTES: usize = 9;

/// The bytes of a tag behind its path: a space, the digits and `"`.
pub(crate) const CLOSING_BYTES: usize = HEX_DIGITS + 2;

/// How many digits a tag has, as a number. A call does nothing.
pub fn digits_in_numbers()
    ensures { HEX_DIGITS ≡ 64 }
{}
