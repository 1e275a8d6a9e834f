use crate::{GRACE_MILLIS, WRITE_TURN_MILLIS};
use cd_outside::Address;
use mio::net;
use std::alloc::Global;
use std::io;
use std::io::ErrorKind;
use std::net::{
    IpAddr, Ipv4Addr, Ipv6Addr, Net, SocketAddr, TcpListener, TcpStream, ToSocketAddrs,
};
use std::os::fd::OwnedFd;
use std::time::Duration;

/// Opens the listeners of an address, whose accepts don't wait. Where one that is needed can't be opened, none stays open.
///
/// An empty host is all interfaces, by IPv6 and IPv4, or by IPv4 alone where there is no IPv6. `localhost` is 127.0.0.1, and ::1
/// where the machine has it. Of the addresses of another name the first of IPv4 is opened, else the first. Port 0, which stands
/// for standard input and output, can't be opened.
pub fn bind<R: Net>(rt: &R, alloc: Global, address: &Address) -> io::Result<Vec<TcpListener>> {
    let host = address.host.as_str();
    if address.port == 0 {
        return Err(io::Error::from(ErrorKind::InvalidInput));
    }
    if host.is_empty() {
        bind_all(rt, alloc, address.port)
    } else if host.eq_ignore_ascii_case("localhost") {
        bind_local(rt, alloc, address.port)
    } else {
        let listener = bind_name(rt, host, address.port)?;
        listeners_of(alloc, listener, None)
    }
}

// Mostly the listener of IPv6 serves IPv4 too. Then one of IPv4 can't be opened, and is not needed.
fn bind_all<R: Net>(rt: &R, alloc: Global, port: u16) -> io::Result<Vec<TcpListener>> {
    let by_four = SocketAddr::new(IpAddr::V4(Ipv4Addr::UNSPECIFIED), port);
    let by_six = SocketAddr::new(IpAddr::V6(Ipv6Addr::UNSPECIFIED), port);
    match bind_at(rt, by_six) {
        Ok(listener) => listeners_of(alloc, listener, bind_at(rt, by_four).ok()),
        Err(error) if error.kind() == ErrorKind::AddrInUse => Err(error),
        Err(_) => listeners_of(alloc, bind_at(rt, by_four)?, None),
    }
}

fn bind_local<R: Net>(rt: &R, alloc: Global, port: u16) -> io::Result<Vec<TcpListener>> {
    let listener = bind_at(rt, SocketAddr::new(IpAddr::V4(Ipv4Addr::LOCALHOST), port))?;
    match bind_at(rt, SocketAddr::new(IpAddr::V6(Ipv6Addr::LOCALHOST), port)) {
        Ok(other) => listeners_of(alloc, listener, Some(other)),
        Err(error) if error.kind() == ErrorKind::AddrInUse => Err(error),
        Err(_) => listeners_of(alloc, listener, None),
    }
}

fn bind_name<R: Net>(rt: &R, host: &str, port: u16) -> io::Result<TcpListener> {
    let mut first = None;
    for addr in (host, port).to_socket_addrs(rt)? {
        if addr.is_ipv4() {
            return bind_at(rt, addr);
        }
        if first.is_none() {
            first = Some(addr);
        }
    }
    match first {
        Some(addr) => bind_at(rt, addr),
        None => Err(io::Error::from(ErrorKind::AddrNotAvailable)),
    }
}

// By mio, whose listeners don't wait, may take a port whose last connections linger in the system, and have the longest queue
// that the system allows.
fn bind_at<R: Net>(rt: &R, addr: SocketAddr) -> io::Result<TcpListener> {
    Ok(with_options(TcpListener::from(net::TcpListener::bind(rt, addr)?)))
}

// Connections get the options of their listener: how long a read and a write wait, and that small answers are sent at once. A stream is
// the only type of std that sets them.
fn with_options(listener: TcpListener) -> TcpListener {
    let stream = TcpStream::from(OwnedFd::from(listener));
    let _ = stream.set_read_timeout(Some(Duration::from_millis(GRACE_MILLIS)));
    let _ = stream.set_write_timeout(Some(Duration::from_millis(WRITE_TURN_MILLIS)));
    let _ = stream.set_nodelay(true);
    TcpListener::from(OwnedFd::from(stream))
}

fn listeners_of(
    alloc: Global,
    listener: TcpListener,
    other: Option<TcpListener>,
) -> io::Result<Vec<TcpListener>> {
    let mut listeners = Vec::new(alloc);
    let mut added = listeners.push(listener).is_ok();
    if let Some(other) = other {
        added = listeners.push(other).is_ok() && added;
    }
    if added {
        Ok(listeners)
    } else {
        Err(io::Error::from(ErrorKind::OutOfMemory))
    }
}
