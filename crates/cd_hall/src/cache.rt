//! The configuration of a worker's last request, for its next one.
ghost use Rattle.std.specs.Prelude.{◌≡◌, ◌≢◌, Some, None, IfSome, true, false};
ghost use Rattle.cd_hall.specs.Caches.{cached};

use crate::hall::Ticket;
use cd_module_set::ModuleSet;
use std::mem::replace;

/// At most one shared configuration, with its serial: that of the ticket of a request that has ended. It is not dropped: `end` takes
/// it.
pub struct Cache<M: ModuleSet> {
    pub(crate) ticket: Option<Ticket<M>>,
}

/// A request that began under a configuration that is not in the cache. It is not dropped: `Hall::fetch` takes it.
pub struct Hold {
    pub(crate) serial: u32,
}

/// What comes of a request that is begun without waiting.
pub enum Now<M: ModuleSet> {
    /// It began under the configuration of the cache, which is now empty.
    Ready(Ticket<M>),
    /// It began under another configuration, or the cache was empty.
    Stale(Hold),
    /// It did not begin: as many began under the serial as may.
    Worn,
}

impl<M: ModuleSet> Cache<M> {
    /// A cache without a configuration.
    pub fn empty() -> Cache<M>
        ensures { result.ticket ≡ None }
    {
        Cache { ticket: None }
    }

    /// The end of the cache. It gives up the configuration that it has.
    pub fn end(self) {
        let Cache { ticket } = self;
        give_up(ticket);
    }

    // It has this ticket, or none, and gives up the one that it had.
    pub(crate) fn put(&mut self, ticket: Option<Ticket<M>>)
        ensures { self.new.ticket ≡ ticket }
    {
        let was = replace(&mut self.ticket, ticket);
        give_up(was);
    }

    // Its ticket, where it is of this serial.
    pub(crate) fn take_at(&mut self, serial: u32) -> Option<Ticket<M>>
        ensures here { IfSome result (λ ticket. (self.old.ticket ≡ Some ticket) × (ticket.serial ≡ serial) × (self.new.ticket ≡ None)) }
        ensures other { result ≡ None → (cached self.old ≢ Some serial) × (self.new ≡ self.old) }
    {
        if !self.is_at(serial) {
            return None;
        }
        self.ticket.take()
    }

    // Whether it has the configuration of this serial.
    fn is_at(&self, serial: u32) -> bool
        ensures yes { result ≡ true → cached self.now ≡ Some serial }
        ensures no { result ≡ false → cached self.now ≢ Some serial }
    {
        match &self.ticket {
            Some(ticket) => ticket.serial == serial,
            None => false,
        }
    }
}

// The share of the ticket is dropped.
fn give_up<M: ModuleSet>(ticket: Option<Ticket<M>>) {
    match ticket {
        Some(Ticket { serial: _, share }) => drop(share),
        None => {}
    }
}
