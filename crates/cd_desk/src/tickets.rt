ghost use Rattle.std.specs.Prelude.{◌≡◌, ◌<◌, ◌+◌, ◌-◌, ◌^◌, length, slice_get, slice_set, Some, None};
ghost use Rattle.std.specs.Vec.{vec_capacity};
ghost use Rattle.cd_legal.specs.declared.entry.Entry.TheVariants as entry;
ghost use Rattle.cd_desk.specs.Desks.{AddsTo, HasTicket, told_at};
ghost use Rattle.cd_desk.specs.Rooms.{KeepsRoom};

use crate::callers::Tickets;
use crate::desk::Desk;
use cd_outside::Fixtures;

// How many of these are at the serial.
fn count_at(tickets: &[Option<u32>], serial: u32) -> u32
    requires { length tickets.now < 2 ^ 32 }
    ensures { result ≡ told_at serial tickets.now }
{
    let mut count = 0;
    for ticket in tickets {
        if *ticket == Some(serial) {
            count += 1;
        }
    }
    count
}

// The caller has this ticket from now on, or none.
fn set_ticket(tickets: &mut Tickets, caller: u32, ticket: Option<u32>)
    requires { caller < length tickets.old.by_caller.items }
    ensures set { tickets.new.by_caller.items ≡ slice_set tickets.old.by_caller.items caller ticket }
    ensures capacity { vec_capacity tickets.new.by_caller ≡ vec_capacity tickets.old.by_caller }
{
    tickets.by_caller[caller as usize] = ticket;
}

impl<F: Fixtures> Desk<F> {
    /// The caller begins a request under the current serial, which is the answer.
    pub fn begin(&mut self, caller: u32) -> u32
        requires free { slice_get self.old.tickets.by_caller.items caller ≡ Some None }
        ensures entry { AddsTo F.calls self.old self.new (entry.Begin caller result) }
        ensures serial { result ≡ self.old.serial }
        ensures faults { F.faults self.new.fixtures ≡ F.faults self.old.fixtures }
        ensures room { KeepsRoom self.old self.new }
    {
        set_ticket(&mut self.tickets, caller, Some(self.serial));
        self.begun = self.begun.saturating_add(1);
        self.serial
    }

    /// The caller ends its request.
    pub fn finish(&mut self, caller: u32)
        requires { HasTicket self.old.tickets.by_caller.items caller }
        ensures entry { AddsTo F.calls self.old self.new (entry.Finish caller) }
        ensures faults { F.faults self.new.fixtures ≡ F.faults self.old.fixtures }
        ensures room { KeepsRoom self.old self.new }
    {
        set_ticket(&mut self.tickets, caller, None);
    }

    /// How many requests run under a serial.
    pub fn tickets_at(&self, serial: u32) -> u32
        ensures { result ≡ told_at serial self.now.tickets.by_caller.items }
    {
        count_at(self.tickets.by_caller.as_slice(), serial)
    }
}
