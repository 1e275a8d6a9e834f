/// The last TCP port. The first one is 1.
pub const MAX_PORT: u16 = 65_535;

/// How many ports a range may have.
pub const MAX_RANGE_PORTS: u16 = 64;
