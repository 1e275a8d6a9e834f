ghost use Rattle.std.specs.Prelude.{◌≡◌, ◌<◌, ◌+◌, ◌==◌, ◌&&◌, not, length, slice_get, IsTrue};
ghost use Rattle.cd_legal.specs.State.{holds, is_live};
ghost use Rattle.cd_legal.specs.declared.entry.Entry.TheVariants.{Draft, Publish, Abandon, Halt};
ghost use Rattle.cd_legal.specs.Legal.{is_complete};
ghost use Rattle.cd_legal.specs.Steps.{Steps};

use crate::conditions::is_complete;
use crate::drafts::set_life;
use crate::{Change, Drafted, Life, MAX_DRAFTS, Plan, State};
use cd_text::NoMemory;
use cd_tree::{Tree, copy};
use std::alloc::Global;

/// The step of `Entry::Draft`.
pub(crate) fn draft(
    alloc: Global,
    state: &mut State,
    number: u64,
    tree: &Tree,
    plan: &Plan,
) -> Result<bool, NoMemory>
    ensures { Steps state.old (Draft number tree.now plan.now) result state.new }
{
    if number != state.drafts.len() as u64 || number >= MAX_DRAFTS {
        return Ok(false);
    }
    let tree = copy(alloc, tree)?;
    let plan = plan.copy(alloc)?;
    state.drafts.push(Drafted {
        tree,
        plan,
        made: 0,
        started: 0,
        failed: None,
        life: Life::Live,
        stopped: 0,
        cleaned: 0,
    })?;
    Ok(true)
}

/// The step of `Entry::Publish`.
pub(crate) fn publish(
    alloc: Global,
    state: &mut State,
    number: u64,
    serial: u32,
    from: u32,
    change: &Change,
) -> Result<bool, NoMemory>
    ensures { Steps state.old (Publish number serial from change.now) result state.new }
{
    let _ = change;
    let at = number as usize;
    if !may_publish(state, at, serial, from) {
        return Ok(false);
    }
    state.published.push(number)?;
    set_life(alloc, &mut state.drafts, at, Life::Published(serial));
    state.serial = serial;
    Ok(true)
}

/// The step of `Entry::Abandon`.
pub(crate) fn abandon(alloc: Global, state: &mut State, number: u64) -> Result<bool, NoMemory>
    ensures { Steps state.old (Abandon number) result state.new }
{
    let at = number as usize;
    if !may_abandon(state, at) {
        return Ok(false);
    }
    set_life(alloc, &mut state.drafts, at, Life::Abandoned);
    Ok(true)
}

/// The step of `Entry::Halt`.
pub(crate) fn halt(state: &mut State, serial: u32) -> Result<bool, NoMemory>
    ensures { Steps state.old (Halt serial) result state.new }
{
    if state.halted || !is_next(serial, state.serial) {
        return Ok(false);
    }
    state.serial = serial;
    state.halted = true;
    Ok(true)
}

// Whether the serial is one more than the other.
fn is_next(serial: u32, before: u32) -> bool
    ensures { result ≡ (serial == before + 1) }
{
    u64::from(serial) == u64::from(before) + 1
}

fn may_publish(state: &State, at: usize, serial: u32, from: u32) -> bool
    ensures value { result ≡ (not state.now.halted && (holds is_complete (slice_get state.now.drafts at) && ((from == state.now.serial) && (serial == from + 1)))) }
    ensures within { IsTrue result → at < length state.now.drafts }
{
    !state.halted && is_complete_at(state, at) && from == state.serial && is_next(serial, from)
}

fn is_complete_at(state: &State, at: usize) -> bool
    ensures value { result ≡ holds is_complete (slice_get state.now.drafts at) }
    ensures within { IsTrue result → at < length state.now.drafts }
{
    match state.drafts.get(at) {
        Some(drafted) => is_complete(drafted),
        None => false,
    }
}

fn may_abandon(state: &State, at: usize) -> bool
    ensures value { result ≡ holds (λ x. is_live x.life) (slice_get state.now.drafts at) }
    ensures within { IsTrue result → at < length state.now.drafts }
{
    match state.drafts.get(at) {
        Some(drafted) => is_live(drafted.life),
        None => false,
    }
}

fn is_live(life: Life) -> bool
    ensures { result ≡ is_live life }
{
    match life {
        Life::Live => true,
        Life::Published(_) => false,
        Life::Abandoned => false,
    }
}
