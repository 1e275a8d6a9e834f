ghost use Rattle.std.specs.Prelude.{◌≡◌, slice_get};
ghost use Rattle.cd_outside.specs.Keys.{keys_in};
ghost use Rattle.cd_legal.specs.State.{holds, part_keys, may_stop_apps, may_clean_instances, all_stopped, has_number};
ghost use Rattle.cd_legal.specs.Legal.{keys_fit, is_open, may_open, is_complete, may_stop, may_clean};

use crate::keys::keys_fit;
use crate::part::Part;
use crate::{Drafted, Life, Plan};
use cd_outside::{Key, Pair};

/// Whether the draft is live and has no failed key.
fn is_open(drafted: &Drafted) -> bool
    ensures { result ≡ is_open drafted.now }
{
    match drafted.life {
        Life::Live => drafted.failed.is_none(),
        Life::Published(_) => false,
        Life::Abandoned => false,
    }
}

/// Whether it is the next of its kind, the instances that it waits for are made, and its keys fit.
pub(crate) fn may_open(
    part: Part,
    drafted: &Drafted,
    place: u32,
    taken: u32,
    failed: &Option<Key>,
    pairs: &[Pair],
) -> bool
    ensures { result ≡ may_open part place taken failed.now pairs.now drafted.now }
{
    is_open(drafted)
        && part.instances_ready(drafted)
        && u64::from(place) == part.opened_in(drafted)
        && keys_fit_at(part, &drafted.plan, place, taken, failed, pairs)
}

// Whether the plan has it, with keys that fit.
fn keys_fit_at(
    part: Part,
    plan: &Plan,
    place: u32,
    taken: u32,
    failed: &Option<Key>,
    pairs: &[Pair],
) -> bool
    ensures { result ≡ holds (λ keys. keys_fit (keys_in pairs.now) keys taken failed.now) (slice_get (part_keys part plan.now) place) }
{
    match part.keys_at(plan, place) {
        Some(keys) => keys_fit(pairs, keys, taken, failed),
        None => false,
    }
}

/// Whether all instances are made and all apps are started.
pub(crate) fn is_complete(drafted: &Drafted) -> bool
    ensures { result ≡ is_complete drafted.now }
{
    is_open(drafted)
        && drafted.made == drafted.plan.modules.len() as u64
        && drafted.started == drafted.plan.apps.len() as u64
}

/// Whether the number is among these.
pub(crate) fn has_number(number: u32, numbers: &[u32]) -> bool
    ensures { result ≡ has_number number numbers.now }
{
    for other in numbers {
        if number == *other {
            return true;
        }
    }
    false
}

/// Whether the apps may be stopped.
fn may_stop_apps(serial: u32, life: Life) -> bool
    ensures { result ≡ may_stop_apps serial life }
{
    match life {
        Life::Live => false,
        Life::Published(with) => with < serial,
        Life::Abandoned => true,
    }
}

/// Whether the instances may be cleaned.
fn may_clean_instances(retired: &[u32], life: Life) -> bool
    ensures { result ≡ may_clean_instances retired.now life }
{
    match life {
        Life::Live => false,
        Life::Published(with) => has_number(with, retired),
        Life::Abandoned => true,
    }
}

/// Whether the app is the last one that is started and not stopped.
pub(crate) fn may_stop(drafted: &Drafted, place: u32, serial: u32) -> bool
    ensures { result ≡ may_stop place serial drafted.now }
{
    may_stop_apps(serial, drafted.life)
        && drafted.stopped < drafted.started
        && u64::from(place) == drafted.started - drafted.stopped - 1
}

/// Whether each app that was started is stopped.
pub(crate) fn all_stopped(drafted: &Drafted) -> bool
    ensures { result ≡ all_stopped drafted.now }
{
    drafted.stopped == drafted.started
}

/// Whether the instance is the last one that is made and not cleaned, and may be cleaned.
pub(crate) fn may_clean(drafted: &Drafted, place: u32, retired: &[u32]) -> bool
    ensures { result ≡ may_clean place retired.now drafted.now }
{
    may_clean_instances(retired, drafted.life)
        && all_stopped(drafted)
        && drafted.cleaned < drafted.made
        && u64::from(place) == drafted.made - drafted.cleaned - 1
}
