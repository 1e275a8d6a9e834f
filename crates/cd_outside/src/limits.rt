ghost use Rattle.std.specs.Prelude.{◌≡◌};

/// The most bytes that the compact text of a configuration may have that a lane keeps.
pub const MAX_KEPT_BYTES: usize = 8_388_608;

/// The limits in numbers. A call does nothing.
pub fn limits_in_numbers()
    ensures { MAX_KEPT_BYTES ≡ 8388608 }
{}
