//! What the text of an address stands for, kept without writing out each port.
ghost use Rattle.std.specs.Prelude.{◌≡◌, ◌+◌, ◌-◌, length, nat_eq, IfOk};
ghost use Rattle.std.specs.List.{list_any, range_with_len};
ghost use Rattle.cd_addr.specs.Addresses.{is_address, listed};

use cd_outside::Address;
use cd_text::{List, NoMemory, Text};
use std::alloc::Global;

/// The addresses of one host at the ports of a range (Caddy, Conventions, Network addresses).
#[derive(Debug, Drop)]
pub struct AddressRange {
    /// The host of each address, in the form that `Address` has.
    pub host: Text,
    /// The first port.
    pub first: u16,
    /// The last port. Where it is below the first, the range has its first port alone.
    pub last: u16,
}

impl AddressRange {
    /// How many addresses it has: 1 to 65,536.
    #[tactic(auto, using(crate::proofs::Ranges::count_is))]
    pub fn count(&self) -> usize
        ensures { result ≡ length (listed self.now) }
    {
        self.last.saturating_sub(self.first) as usize + 1
    }

    /// Whether an address is one of them. It takes no memory.
    #[tactic(auto, using(crate::proofs::Ranges::contains_is))]
    pub fn contains(&self, address: &Address) -> bool
        ensures { result ≡ list_any (is_address address.now) (listed self.now) }
    {
        address.host.equals(self.host.as_str()) && self.has_port(address.port)
    }

    #[tactic(auto, using(crate::proofs::Ranges::in_ports))]
    fn has_port(&self, port: u16) -> bool
        ensures { result ≡ list_any (nat_eq port) (range_with_len self.now.first (self.now.last - self.now.first + 1)) }
    {
        self.first <= port && port - self.first <= self.last.saturating_sub(self.first)
    }

    /// Its addresses, by rising port.
    #[tactic(auto, using(crate::proofs::Ranges::one_more))]
    pub fn list(&self, alloc: Global) -> Result<List<Address>, NoMemory>
        ensures { IfOk result (λ made. made ≡ listed self.now) }
    {
        let mut made = List::new(alloc);
        for place in 0..self.last.saturating_sub(self.first) as usize + 1 {
            let host = self.host.copy(alloc)?;
            let port = self.first + place as u16;
            made.push(Address { host, port })?;
        }
        Ok(made)
    }
}
