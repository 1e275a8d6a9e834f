// A pass that keeps the configuration of its last request begins the next one by it.
ghost use Rattle.std.specs.Prelude.{◌≡◌, [], Some, None};
ghost use Rattle.cd_gate.specs.Passes.{view};
ghost use Rattle.cd_hall.specs.Caches.{IsCacheOf};
ghost use Rattle.cd_hall.specs.Tickets.{IsTicketOf};
ghost use Rattle.cd_pair.specs.Passes.{Has};

use crate::plans::{On, Player, Set};
use cd_hall::{Cache, NoFetch, Now, Ticket, caches_keep_their_configurations};
use cd_life::Board;
use cd_outside::MemoryFixtures;
use cd_pair::Refused;
use std::sync::Wait;

/// A request that began and ended.
#[derive(Clone, Copy, Debug, PartialEq, Eq)]
pub struct Asked {
    /// The serial under which it began.
    pub serial: u32,
    /// Whether the cache had its configuration.
    pub ready: bool,
}

/// The pass begins a request by its cache, and ends it.
pub fn ask_now<R: Wait>(
    on: &On<'_, R>,
    pass: &mut Player,
    cache: &mut Cache<Set>,
    number: u32,
) -> Result<Asked, Refused>
    requires has { Has on.now.hall.now pass.old number None None [] }
    requires cache { IsCacheOf (view pass.old) cache.old }
    ensures has { Has on.now.hall.now pass.new number None None [] }
    ensures cache { IsCacheOf (view pass.new) cache.new }
{
    match on.hall.begin_now(pass, cache) {
        Now::Ready(ticket) => Ok(end_now(on, pass, cache, ticket, true, number)),
        Now::Stale(hold) => match on.hall.fetch(on.rt, hold, cache, pass) {
            Ok(ticket) => Ok(end_now(on, pass, cache, ticket, false, number)),
            Err(NoFetch { duty }) => {
                on.retire(pass, duty, number);
                Err(Refused::NoMemory)
            }
        },
        Now::Worn => Err(Refused::NoMemory),
    }
}

// Ends the request, whose configuration the cache then has, and retires what is due.
fn end_now<R: Wait>(
    on: &On<'_, R>,
    pass: &mut Player,
    cache: &mut Cache<Set>,
    ticket: Ticket<Set>,
    ready: bool,
    number: u32,
) -> Asked
    requires has { Has on.now.hall.now pass.old number (Some ticket.serial) None [] }
    requires ticket { IsTicketOf (view pass.old) ticket }
    ensures has { Has on.now.hall.now pass.new number None None [] }
    ensures cache { IsCacheOf (view pass.new) cache.new }
{
    let serial = ticket.serial();
    let duty = on.hall.finish_now(ticket, cache, pass);
    on.retire(pass, duty, number);
    caches_keep_their_configurations::<Board<Set, MemoryFixtures>, Set>(cache);
    Asked { serial, ready }
}
