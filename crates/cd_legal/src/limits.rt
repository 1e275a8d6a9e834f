ghost use Rattle.std.specs.Prelude.{◌≡◌, ◌^◌, ◌-◌};
ghost use Rattle.cd_legal.specs.declared.limits.TheConstants.{MAX_DRAFTS, MAX_UNRETIRED, LAST_SERIAL, MAX_BEGINS, MAX_SEATS, MAX_LANES, MAX_PASSES, MAX_MODULES};

/// How many drafts a history may have.
pub const MAX_DRAFTS: u64 = 18_446_744_073_709_551_615;

/// How many configurations may stand unretired at a time, the one that is to be published among them. A gate has a balance for each.
pub const MAX_UNRETIRED: u32 = 1_024;

/// The largest serial that is published, 2^24 - 2, so that the serial of a halt after it still fits 24 bits.
pub const LAST_SERIAL: u32 = 16_777_214;

/// How many requests may begin under one serial, 2^39, before further ones are refused.
pub const MAX_BEGINS: u64 = 549_755_813_888;

/// How many passes a hall may have at a time.
pub const MAX_SEATS: u32 = 129;

/// How many lanes a host may serve at a time, each by a pass of its own; one pass more is the host's.
pub const MAX_LANES: u32 = 128;

/// How many passes may ever be made of one history.
pub const MAX_PASSES: u32 = 65_536;

/// How many modules a plan may have. Its apps are one more at most.
pub const MAX_MODULES: usize = 65_536;

/// The limits in numbers. A call does nothing.
pub fn limits_in_numbers()
    ensures drafts { MAX_DRAFTS ≡ 2 ^ 64 - 1 }
    ensures unretired { MAX_UNRETIRED ≡ 1024 }
    ensures serials { LAST_SERIAL ≡ 2 ^ 24 - 2 }
    ensures begins { MAX_BEGINS ≡ 2 ^ 39 }
    ensures seats { MAX_SEATS ≡ 129 }
    ensures lanes { MAX_LANES ≡ MAX_SEATS - 1 }
    ensures passes { MAX_PASSES ≡ 65536 }
    ensures modules { MAX_MODULES ≡ 65536 }
{}
