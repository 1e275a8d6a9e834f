ghost use Rattle.std.specs.Prelude.{◌≡◌, slice_get};
ghost use Rattle.std.specs.Option.{option_copied};
ghost use Rattle.cd_legal.specs.State.{part_of, part_keys, opened_in, instances_ready};

use crate::{Drafted, Plan};
use cd_outside::{Holder, Key};

/// The two kinds of what a draft consists of. Entries name neither: what is made and cleaned is an instance, what is started and
/// stopped an app.
#[derive(Clone, Copy)]
pub enum Part {
    /// An instance of a module: it is made and cleaned.
    Instance,
    /// An app: it is started and stopped.
    App,
}

impl Part {
    /// The one at this place of a draft, as it holds keys.
    pub(crate) fn holder(self, draft: u64, place: u32) -> Holder
        ensures { result ≡ part_of self draft place }
    {
        let app = match self {
            Part::Instance => false,
            Part::App => true,
        };
        Holder { draft, app, place }
    }

    /// The keys of the one at this place, where it is there.
    pub(crate) fn keys_at(self, plan: &Plan, place: u32) -> Option<&[Key]>
        ensures { option_copied result ≡ slice_get (part_keys self plan.now) place }
    {
        let place = place as usize;
        match self {
            Part::Instance => match plan.modules.get(place) {
                Some(module) => Some(module.keys.as_slice()),
                None => None,
            },
            Part::App => match plan.apps.get(place) {
                Some(app) => Some(app.keys.as_slice()),
                None => None,
            },
        }
    }

    /// How many of this kind are opened: made or started.
    pub(crate) fn opened_in(self, drafted: &Drafted) -> u64
        ensures { result ≡ opened_in self drafted.now }
    {
        match self {
            Part::Instance => drafted.made,
            Part::App => drafted.started,
        }
    }

    /// Whether the instances that this kind waits for are made: an app waits for all of them.
    pub(crate) fn instances_ready(self, drafted: &Drafted) -> bool
        ensures { result ≡ instances_ready self drafted.now }
    {
        match self {
            Part::Instance => true,
            Part::App => drafted.made == drafted.plan.modules.len() as u64,
        }
    }
}
