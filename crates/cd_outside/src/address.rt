ghost use Rattle.std.specs.Prelude.{◌≡◌, IfOk, codes};

use cd_text::{NoMemory, Text};
use std::alloc::Global;

/// An address of the server: where it listens, and where a connection came to.
#[derive(Debug, Drop, PartialEq, Eq)]
pub struct Address {
    /// A name or an IP address as it was written, without brackets; empty for all interfaces.
    pub host: Text,
    /// A TCP port, 1 to 65535; 0 for standard input and output.
    pub port: u16,
}

impl Address {
    /// The address of standard input and output: host `stdio`, port 0.
    pub fn stdio(alloc: Global) -> Result<Address, NoMemory>
        ensures { IfOk result (λ address. address ≡ record { host = codes "stdio"; port = 0 }) }
    {
        Ok(Address {
            host: Text::from_str(alloc, "stdio")?,
            port: 0,
        })
    }

    /// A copy.
    pub fn copy(&self, alloc: Global) -> Result<Address, NoMemory>
        ensures { IfOk result (λ address. address ≡ self.now) }
    {
        Ok(Address {
            host: self.host.copy(alloc)?,
            port: self.port,
        })
    }
}
