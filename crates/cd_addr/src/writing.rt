ghost use Rattle.std.specs.Prelude.{◌≡◌, IfOk};
ghost use Rattle.cd_addr.specs.Addresses.{written, has_colon};

use cd_outside::Address;
use cd_text::{NoMemory, Text};
use std::alloc::Global;

/// The text of an address: the host, `:` and the port, as `localhost:80`. A host that has a colon, as an IPv6 address, is in
/// brackets.
pub fn write(alloc: Global, address: &Address) -> Result<Text, NoMemory>
    ensures { IfOk result (λ text. text ≡ written address.now) }
{
    let host = address.host.as_str();
    let port = address.port;
    let text = if has_colon(host) {
        format!(in alloc; "[{host}]:{port}")?
    } else {
        format!(in alloc; "{host}:{port}")?
    };
    Ok(Text::from_string(text))
}

fn has_colon(host: &str) -> bool
    ensures { result ≡ has_colon host.now }
{
    host.as_bytes().iter().any(|byte| *byte == b':')
}
