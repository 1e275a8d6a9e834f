ghost use Rattle.std.specs.Prelude.{◌≡◌};

/// The most bytes that a text may have which is read, and the most that the compact text of a sound tree has.
pub const MAX_TEXT_BYTES: usize = 8_388_608;

/// The most levels that lists and objects of a sound tree nest. A flat one is one level.
pub const MAX_DEPTH: usize = 100;

/// The limits in numbers. A call does nothing.
pub fn limits_in_numbers()
    ensures text { MAX_TEXT_BYTES ≡ 8388608 }
    ensures depth { MAX_DEPTH ≡ 100 }
{}
