ghost use Rattle.std.specs.Prelude.{◌≡◌, OnErr, Ok};
ghost use Rattle.cd_legal.specs.declared.entry.Entry.TheVariants.{Begin, Finish, Retire};
ghost use Rattle.cd_legal.specs.State.{all_stopped, apps_stopped, has_ticket, is_ticketed, without_ticket, draft_of, of_draft};
ghost use Rattle.cd_legal.specs.Legal.{may_retire};
ghost use Rattle.cd_legal.specs.Steps.{Steps};

use crate::conditions::{all_stopped, has_number};
use crate::{OpenTicket, State};
use cd_text::{List, NoMemory};
use std::alloc::Global;
use std::mem;

fn has_ticket(caller: u32, tickets: &[OpenTicket]) -> bool
    ensures { result ≡ has_ticket caller tickets.now }
{
    for ticket in tickets {
        if ticket.caller == caller {
            return true;
        }
    }
    false
}

fn is_ticketed(serial: u32, tickets: &[OpenTicket]) -> bool
    ensures { result ≡ is_ticketed serial tickets.now }
{
    for ticket in tickets {
        if ticket.serial == serial {
            return true;
        }
    }
    false
}

// Takes the caller's ticket away.
fn drop_ticket(alloc: Global, tickets: &mut List<OpenTicket>, caller: u32)
    ensures { tickets.new ≡ without_ticket caller tickets.old }
{
    let mut kept = mem::replace(tickets, List::new(alloc)).into_vec();
    kept.retain(|ticket| ticket.caller != caller);
    *tickets = List::from_vec(kept);
}

// The draft that was published with this serial.
fn draft_of(serial: u32, published: &List<u64>) -> Option<u64>
    ensures { result ≡ draft_of serial published.now }
{
    if serial == 0 {
        return None;
    }
    published.get(serial as usize - 1).copied()
}

// Whether each app of the configuration with this serial is stopped.
fn apps_stopped(state: &State, serial: u32) -> bool
    ensures { result ≡ apps_stopped state.now serial }
{
    match draft_of(serial, &state.published) {
        None => true,
        Some(number) => match state.drafts.get(number as usize) {
            Some(drafted) => all_stopped(drafted),
            None => true,
        },
    }
}

fn may_retire(state: &State, serial: u32) -> bool
    ensures { result ≡ may_retire state.now serial }
{
    serial < state.serial
        && !has_number(serial, state.retired.as_slice())
        && apps_stopped(state, serial)
        && !is_ticketed(serial, state.tickets.as_slice())
}

impl State {
    /// Makes the change of `Entry::Begin`, and answers whether it is allowed: where the serial is the current one and the caller
    /// has no open ticket. Where it is not, and after `NoMemory`, the state is as before.
    pub fn begin(&mut self, caller: u32, serial: u32) -> Result<bool, NoMemory>
        ensures step { Steps self.old (Begin caller serial) result self.new }
        ensures err { OnErr result (self.new ≡ self.old) }
    {
        if serial != self.serial || has_ticket(caller, self.tickets.as_slice()) {
            return Ok(false);
        }
        self.tickets.push(OpenTicket { caller, serial })?;
        Ok(true)
    }

    /// Makes the change of `Entry::Finish`, and answers whether it is allowed: where the caller has an open ticket. Where it is
    /// not the state is as before.
    pub fn finish(&mut self, alloc: Global, caller: u32) -> bool
        ensures { Steps self.old (Finish caller) (Ok result) self.new }
    {
        if !has_ticket(caller, self.tickets.as_slice()) {
            return false;
        }
        drop_ticket(alloc, &mut self.tickets, caller);
        true
    }
}

/// The step of `Entry::Retire`.
pub(crate) fn retire(state: &mut State, serial: u32) -> Result<bool, NoMemory>
    ensures { Steps state.old (Retire serial) result state.new }
{
    if !may_retire(state, serial) {
        return Ok(false);
    }
    state.retired.push(serial)?;
    Ok(true)
}
