use std::time::{Clock, Duration};

/// The time since some start. A clock that can't be read stands still.
pub fn now<R: Clock>(rt: &R) -> Duration {
    rt.monotonic().unwrap_or(Duration::ZERO)
}

/// How many milliseconds have passed since then.
pub fn millis_since<R: Clock>(rt: &R, from: Duration) -> u64 {
    u64::try_from(now(rt).saturating_sub(from).as_millis()).unwrap_or(u64::MAX)
}
