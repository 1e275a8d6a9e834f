ghost use Rattle.std.specs.Prelude.{◌≡◌};
ghost use Rattle.cd_text.specs.Gives.{Gives};
ghost use Rattle.cd_legal.specs.declared.fault.ReplayFault.TheVariants.{NoMemory as OutOfMemory};
ghost use Rattle.cd_legal.specs.State.{opening_state};
ghost use Rattle.cd_legal.specs.Legal.{replayed};
ghost use Rattle.cd_legal.specs.Steps.{Steps};

use crate::drafting::{abandon, draft, halt, publish};
use crate::making::{end_part, open_part};
use crate::part::Part;
use crate::tickets::retire;
use crate::{Entry, ReplayFault, State};
use cd_text::{List, NoMemory};
use std::alloc::Global;

/// The state that the entries leave, from the opening state; `NotAllowed` with the place of the first entry that the state
/// before it does not allow, where there is one.
pub fn replay(alloc: Global, entries: &[Entry]) -> Result<State, ReplayFault>
    ensures { Gives OutOfMemory result (replayed entries.now) }
{
    let mut state = State::opening(alloc);
    for place in 0..entries.len() {
        if !step(alloc, &mut state, &entries[place])? {
            return Err(ReplayFault::NotAllowed(place));
        }
    }
    Ok(state)
}

impl State {
    /// The state of the empty history.
    pub fn opening(alloc: Global) -> State
        ensures { result ≡ opening_state }
    {
        State {
            serial: 0,
            halted: false,
            published: List::new(alloc),
            drafts: List::new(alloc),
            tickets: List::new(alloc),
            retired: List::new(alloc),
            pairs: List::new(alloc),
        }
    }
}

// Makes the entry's change where it is allowed, and answers whether it is.
fn step(alloc: Global, state: &mut State, entry: &Entry) -> Result<bool, NoMemory>
    ensures { Steps state.old entry.now result state.new }
{
    match entry {
        Entry::Draft(number, tree, plan) => draft(alloc, state, *number, tree, plan),
        Entry::Made(draft, place, taken, failed) => {
            open_part(alloc, state, Part::Instance, *draft, *place, *taken, failed)
        }
        Entry::Started(draft, place, taken, failed) => {
            open_part(alloc, state, Part::App, *draft, *place, *taken, failed)
        }
        Entry::Publish(draft, serial, from, change) => {
            publish(alloc, state, *draft, *serial, *from, change)
        }
        Entry::Abandon(draft) => abandon(alloc, state, *draft),
        Entry::Stopped(draft, place) => end_part(alloc, state, Part::App, *draft, *place),
        Entry::Begin(caller, serial) => state.begin(*caller, *serial),
        Entry::Finish(caller) => Ok(state.finish(alloc, *caller)),
        Entry::Retire(serial) => retire(state, *serial),
        Entry::Cleaned(draft, place) => end_part(alloc, state, Part::Instance, *draft, *place),
        Entry::Halt(serial) => halt(state, *serial),
    }
}
