use crate::{DIAL_SECONDS, MAX_DIALS, UPSTREAM_SECONDS, WRITE_TURN_MILLIS};
use cd_outside::Address;
use std::alloc::Global;
use std::io;
use std::io::ErrorKind;
use std::net::{Net, SocketAddr, TcpStream, ToSocketAddrs};
use std::time::Duration;

/// Connects to the first address of an upstream that takes the connection, and says for how long its reads and writes wait. Of a name
/// the addresses of IPv4 are tried first. The name is looked up each time.
pub fn dial<R: Net<Stream = TcpStream>>(
    rt: &R,
    alloc: Global,
    to: &Address,
) -> io::Result<TcpStream> {
    let time = Duration::from_secs(DIAL_SECONDS);
    let mut last = io::Error::from(ErrorKind::AddrNotAvailable);
    for addr in addresses_of(rt, alloc, to)?.iter() {
        match TcpStream::connect_timeout(rt, addr, time) {
            Ok(stream) => return with_limits(stream),
            Err(error) => last = error,
        }
    }
    Err(last)
}

// The addresses that are tried, in their order.
fn addresses_of<R: Net>(rt: &R, alloc: Global, to: &Address) -> io::Result<Vec<SocketAddr>> {
    let mut tried = Vec::new(alloc);
    let mut by_six = Vec::new(alloc);
    for addr in (to.host.as_str(), to.port).to_socket_addrs(rt)? {
        if addr.is_ipv4() {
            tried.push(addr)?;
        } else {
            by_six.push(addr)?;
        }
    }
    tried.extend_from_slice(by_six.as_slice())?;
    tried.truncate(MAX_DIALS);
    Ok(tried)
}

// A small request is sent at once.
fn with_limits(stream: TcpStream) -> io::Result<TcpStream> {
    stream.set_read_timeout(Some(Duration::from_secs(UPSTREAM_SECONDS)))?;
    stream.set_write_timeout(Some(Duration::from_millis(WRITE_TURN_MILLIS)))?;
    let _ = stream.set_nodelay(true);
    Ok(stream)
}
