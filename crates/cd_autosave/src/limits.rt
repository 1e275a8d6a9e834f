ghost use Rattle.std.specs.Prelude.{◌≡◌, ◌^◌};

/// Where the second slot of the file begins. The first begins at 0.
pub const SECOND_START: u64 = 16_777_216;

/// The bytes of a slot before its text: a gate, a number of eight bytes and a length of four.
pub const HEAD_BYTES: usize = 13;

/// The greatest number that a slot may have.
pub const MAX_NUMBER: u64 = 9_223_372_036_854_775_808;

/// The limits in numbers. A call does nothing.
pub fn limits_in_numbers()
    ensures start { SECOND_START ≡ 16777216 }
    ensures head { HEAD_BYTES ≡ 13 }
    ensures number { MAX_NUMBER ≡ 2 ^ 63 }
{}
