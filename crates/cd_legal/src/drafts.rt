ghost use Rattle.std.specs.Prelude.{◌≡◌, ◌<◌, ◌==◌, nat_lt, length, slice_get, IsTrue};
ghost use Rattle.cd_legal.specs.State.{holds, change_at, opened_in, ended_in, one_opened, one_ended};

use crate::part::Part;
use crate::{Drafted, Life};
use cd_outside::Key;
use cd_text::List;
use std::alloc::Global;
use std::mem;

/// One more is opened of a draft, the one at this place, and this key has failed.
pub(crate) fn add_opened(
    alloc: Global,
    drafts: &mut List<Drafted>,
    part: Part,
    at: usize,
    place: u32,
    failed: Option<Key>,
)
    requires { IsTrue (holds (λ x. place == opened_in part x) (slice_get drafts.old at)) }
    ensures { drafts.new ≡ change_at (one_opened part failed) at drafts.old }
{
    let mut all = mem::replace(drafts, List::new(alloc)).into_vec();
    let drafted = &mut all[at];
    open_one(part, drafted, place, failed);
    *drafts = List::from_vec(all);
}

fn open_one(part: Part, drafted: &mut Drafted, place: u32, failed: Option<Key>)
    requires { place ≡ opened_in part drafted.old }
    ensures { drafted.new ≡ one_opened part failed drafted.old }
{
    drafted.failed = failed;
    match part {
        Part::Instance => drafted.made = u64::from(place) + 1,
        Part::App => drafted.started = u64::from(place) + 1,
    }
}

/// One more is ended of a draft.
pub(crate) fn add_ended(alloc: Global, drafts: &mut List<Drafted>, part: Part, at: usize)
    requires { IsTrue (holds (λ x. nat_lt (ended_in part x) (opened_in part x)) (slice_get drafts.old at)) }
    ensures { drafts.new ≡ change_at (one_ended part) at drafts.old }
{
    let mut all = mem::replace(drafts, List::new(alloc)).into_vec();
    let drafted = &mut all[at];
    end_one(part, drafted);
    *drafts = List::from_vec(all);
}

fn end_one(part: Part, drafted: &mut Drafted)
    requires { ended_in part drafted.old < opened_in part drafted.old }
    ensures { drafted.new ≡ one_ended part drafted.old }
{
    match part {
        Part::Instance => {
            prove!(drafted.cleaned < drafted.made);
            drafted.cleaned += 1;
        }
        Part::App => {
            prove!(drafted.stopped < drafted.started);
            drafted.stopped += 1;
        }
    }
}

/// A draft has this life.
pub(crate) fn set_life(alloc: Global, drafts: &mut List<Drafted>, at: usize, life: Life)
    requires { at < length drafts.old }
    ensures { drafts.new ≡ change_at (λ x. record x { life = life }) at drafts.old }
{
    let mut all = mem::replace(drafts, List::new(alloc)).into_vec();
    let drafted = &mut all[at];
    drafted.life = life;
    *drafts = List::from_vec(all);
}
