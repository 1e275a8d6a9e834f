//! What a lane's exchanges with upstreams come to.
ghost use Rattle.std.specs.Prelude.{◌≡◌, true};

use cd_outside::{Address, Given, Opened, Taken};
use cd_peers::Peers;
use cd_tcp::{Reactor, TcpPeers};
use cd_text::Text;
use std::alloc::Global;
use std::io;
use std::io::{ErrorKind, Read, Write};
use std::net::{Net, TcpListener, TcpStream};
use std::sync::Wait;
use std::thread::{Threads, join};
use std::time::Clock;

// An address of this machine.
fn address_of(alloc: Global, listener: &TcpListener) -> io::Result<Address> {
    let port = listener.local_addr()?.port();
    match Text::from_str(alloc, "127.0.0.1") {
        Ok(host) => Ok(Address { host, port }),
        Err(_) => Err(io::Error::from(ErrorKind::OutOfMemory)),
    }
}

// An upstream that takes four bytes, and sends these two pieces.
fn serve(listener: &TcpListener, first: &[u8], second: &[u8]) -> io::Result<()> {
    let (mut stream, _) = listener.accept()?;
    let mut taken = [0u8; 4];
    stream.read_exact(&mut taken)?;
    stream.write_all(first)?;
    stream.write_all(second)
}

// Whether an exchange of four bytes gives these, and then its end.
fn gives<R: Net<Stream = TcpStream> + Clock>(
    rt: &R,
    alloc: Global,
    reactor: &Reactor,
    to: &Address,
    wanted: &[u8],
) -> bool {
    let mut peers = TcpPeers::new(rt, alloc, reactor);
    let Opened::Ready = peers.dial(to) else {
        return false;
    };
    let put = peers.write(b"ping") == Given::All;
    let mut all = Vec::new(alloc);
    let ended = read_to_end(&mut peers, &mut all);
    peers.end();
    put && ended && all.as_slice() == wanted
}

// Whether the upstream's bytes come to an end. They are added here.
fn read_to_end<P: Peers>(peers: &mut P, all: &mut Vec<u8>) -> bool
    requires { P.busy peers.old ≡ true }
    ensures { P.busy peers.new ≡ true }
{
    let mut room = [0u8; 64];
    for _ in 0..64 {
        match peers.read(&mut room) {
            Taken::Bytes(count) => {
                if all.extend_from_slice(&room[..count]).is_err() {
                    return false;
                }
            }
            Taken::End => return true,
            Taken::Failed => return false,
        }
    }
    false
}

/// Whether the bytes of an upstream come whole, whose answer it sends in two pieces.
pub fn an_upstream_answers<
    R: Threads + Sync + Clock + Net<Listener = TcpListener, Stream = TcpStream> + AllocGlobal,
>(rt: &R, reactor: &Reactor) -> io::Result<bool> {
    let listener = TcpListener::bind(rt, "127.0.0.1:0")?;
    let to = address_of(rt.alloc(), &listener)?;
    let (served, given) = join(
        rt,
        || serve(&listener, b"po", b"ng").is_ok(),
        || gives(rt, rt.alloc(), reactor, &to, b"pong"),
    );
    Ok(served && given)
}

/// Whether the end of an upstream that sends nothing is its end.
pub fn an_upstream_ends<
    R: Threads + Sync + Clock + Net<Listener = TcpListener, Stream = TcpStream> + AllocGlobal,
>(rt: &R, reactor: &Reactor) -> io::Result<bool> {
    let listener = TcpListener::bind(rt, "127.0.0.1:0")?;
    let to = address_of(rt.alloc(), &listener)?;
    let (served, given) = join(
        rt,
        || serve(&listener, b"", b"").is_ok(),
        || gives(rt, rt.alloc(), reactor, &to, b""),
    );
    Ok(served && given)
}

/// Whether a dial fails where nobody listens, for that reason.
pub fn nobody_is_there<R: Clock + Net<Listener = TcpListener, Stream = TcpStream> + AllocGlobal>(
    rt: &R,
    reactor: &Reactor,
) -> io::Result<bool> {
    let listener = TcpListener::bind(rt, "127.0.0.1:0")?;
    let to = address_of(rt.alloc(), &listener)?;
    drop(listener);
    let mut peers = TcpPeers::new(rt, rt.alloc(), reactor);
    let failed = peers.dial(&to) == Opened::Failed;
    let refused = match peers.cause() {
        Some(error) => error.kind() == ErrorKind::ConnectionRefused,
        None => false,
    };
    Ok(failed && refused)
}
