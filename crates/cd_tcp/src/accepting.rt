use crate::connection::Connection;
use crate::waiting::Waiting;
use cd_outside::Address;
use std::alloc::Global;
use std::io;
use std::io::ErrorKind;
use std::net::{OpenListener, TcpListener, TcpStream};

// The system's numbers for no free descriptor, in the process and in the system.
const EMFILE: i32 = 24;

const ENFILE: i32 = 23;

/// What one accept of a listener answers.
pub enum Came {
    Connection(Connection<TcpStream>),
    /// No connection waits there.
    Nobody,
    /// The client has given up before it was accepted, or the system says to try again.
    Gone,
    /// Out of memory: the connection was let go.
    Lacking,
    /// There is no free descriptor.
    NoDescriptor(io::Error),
    Failed(io::Error),
}

/// Takes a connection that waits at a listener. Its reads and writes don't wait.
pub fn accept(alloc: Global, listener: &TcpListener, address: &Address) -> Came {
    match listener.accept() {
        Ok((stream, _)) => begin(alloc, stream, address),
        Err(error) => refused(error),
    }
}

fn begin(alloc: Global, stream: TcpStream, address: &Address) -> Came {
    if stream.set_nonblocking(true).is_err() {
        return Came::Gone;
    }
    match address.copy(alloc) {
        Ok(address) => Came::Connection(Connection {
            stream,
            address,
            waiting: Waiting::new(alloc),
            waits: false,
            watched: false,
            drained: false,
        }),
        Err(_) => Came::Lacking,
    }
}

fn refused(error: io::Error) -> Came {
    if error.kind() == ErrorKind::WouldBlock {
        return Came::Nobody;
    }
    match error.raw_os_error() {
        Some(code) if is_passing(code) => Came::Gone,
        Some(code) if code == EMFILE || code == ENFILE => Came::NoDescriptor(error),
        _ => Came::Failed(error),
    }
}

// Whether an accept that failed so is to be tried again at once: the trouble is that of one connection. These are EPERM, EINTR,
// ENONET, EPROTO, ENOPROTOOPT, EOPNOTSUPP, ENETDOWN, ENETUNREACH, ECONNABORTED, ETIMEDOUT, EHOSTDOWN and EHOSTUNREACH (accept(2)).
fn is_passing(code: i32) -> bool {
    matches!(
        code,
        1 | 4 | 64 | 71 | 92 | 95 | 100 | 101 | 103 | 110 | 112 | 113
    )
}
