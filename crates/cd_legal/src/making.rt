ghost use Rattle.std.specs.Prelude.{◌≡◌, slice_get};
ghost use Rattle.cd_legal.specs.State.{holds, keys_for, part_keys};
ghost use Rattle.cd_legal.specs.Legal.{may_open, part_opened, part_ended};
ghost use Rattle.cd_legal.specs.Steps.{may_end, StepsTo};

use crate::conditions::{may_clean, may_open, may_stop};
use crate::drafts::{add_ended, add_opened};
use crate::keys::{copy_failed, give_keys, take_keys};
use crate::part::Part;
use crate::{Drafted, State};
use cd_outside::Key;
use cd_text::{List, NoMemory};
use std::alloc::Global;

/// The step of `Entry::Made` and of `Entry::Started`.
pub(crate) fn open_part(
    alloc: Global,
    state: &mut State,
    part: Part,
    draft: u64,
    place: u32,
    taken: u32,
    failed: &Option<Key>,
) -> Result<bool, NoMemory>
    ensures { StepsTo (holds (may_open part place taken failed.now state.old.pairs) (slice_get state.old.drafts draft)) state.old (part_opened part draft place taken failed.now state.old) result state.new }
{
    let at = draft as usize;
    if !may_open_of(state, part, at, place, taken, failed) {
        return Ok(false);
    }
    let failed = copy_failed(alloc, failed)?;
    let holder = part.holder(draft, place);
    let keys = keys_to_open(part, &state.drafts, at, place);
    take_keys(alloc, &mut state.pairs, holder, keys, taken)?;
    add_opened(alloc, &mut state.drafts, part, at, place, failed);
    Ok(true)
}

fn may_open_of(
    state: &State,
    part: Part,
    at: usize,
    place: u32,
    taken: u32,
    failed: &Option<Key>,
) -> bool
    ensures { result ≡ holds (may_open part place taken failed.now state.now.pairs) (slice_get state.now.drafts at) }
{
    match state.drafts.get(at) {
        Some(drafted) => may_open(part, drafted, place, taken, failed, state.pairs.as_slice()),
        None => false,
    }
}

// The keys of the one at this place in the plan of a draft.
fn keys_to_open(part: Part, drafts: &List<Drafted>, at: usize, place: u32) -> &[Key]
    ensures { result.now ≡ keys_for part place (slice_get drafts.now at) }
{
    let Some(drafted) = drafts.get(at) else {
        return &[];
    };
    match part.keys_at(&drafted.plan, place) {
        Some(keys) => keys,
        None => &[],
    }
}

/// The step of `Entry::Cleaned` and of `Entry::Stopped`.
pub(crate) fn end_part(
    alloc: Global,
    state: &mut State,
    part: Part,
    draft: u64,
    place: u32,
) -> Result<bool, NoMemory>
    ensures { StepsTo (holds (may_end part place state.old) (slice_get state.old.drafts draft)) state.old (part_ended part draft place state.old) result state.new }
{
    let at = draft as usize;
    if !may_end_of(state, part, at, place) {
        return Ok(false);
    }
    let holder = part.holder(draft, place);
    add_ended(alloc, &mut state.drafts, part, at);
    give_keys(alloc, &mut state.pairs, holder);
    Ok(true)
}

fn may_end_of(state: &State, part: Part, at: usize, place: u32) -> bool
    ensures { result ≡ holds (may_end part place state.now) (slice_get state.now.drafts at) }
{
    match state.drafts.get(at) {
        Some(drafted) => match part {
            Part::Instance => may_clean(drafted, place, state.retired.as_slice()),
            Part::App => may_stop(drafted, place, state.serial),
        },
        None => false,
    }
}
