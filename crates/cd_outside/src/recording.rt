ghost use Rattle.std.specs.Prelude.{◌≡◌, ◌<◌, ◌++◌, ◌∷◌, [], true, length, OnOk, OnErr, IfOk};
ghost use Rattle.cd_outside.specs.declared.accepted.Accepted.TheVariants.{Connection as Accepts, Failed};
ghost use Rattle.cd_outside.specs.declared.given.Given.TheVariants.{All};
ghost use Rattle.cd_outside.specs.Past.{fresh, with_connection, after_accept, after_put, after_line, after_keep};

use crate::{Accepted, Address, Connection, KeepRecord, Key, Logged, Past};
use cd_text::{List, NoMemory, Octets, Text};
use std::alloc::Global;
use std::mem;

// Records a connection to this address. An `Err` changes nothing.
pub fn begin(alloc: Global, past: &mut Past, address: &Address) -> Result<(), NoMemory>
    ensures ok { OnOk result (past.new ≡ after_accept (Accepts address.now) past.old) }
    ensures err { OnErr result (past.new ≡ past.old) }
{
    let last = address.copy(alloc)?;
    let connection = unread(alloc, address.copy(alloc)?);
    past.connections.push(connection)?;
    past.last = Some(Accepted::Connection(last));
    Ok(())
}

fn unread(alloc: Global, address: Address) -> Connection
    ensures { result ≡ fresh address }
{
    Connection {
        address,
        taken: Octets::new(alloc),
        ended: false,
        put: Octets::new(alloc),
        lines: List::new(alloc),
        keeps: List::new(alloc),
    }
}

// Records a failed accept.
pub fn refuse(past: &mut Past)
    ensures { past.new ≡ after_accept Failed past.old }
{
    past.accept_faults = past.accept_faults.saturating_add(1);
    past.last = Some(Accepted::Failed);
}

// Records what was read from the last connection. An `Err` changes nothing.
pub fn add_taken(alloc: Global, past: &mut Past, bytes: &[u8]) -> Result<(), NoMemory>
    requires { 0 < length past.old.connections }
    ensures len { length past.new.connections ≡ length past.old.connections }
    ensures ok { OnOk result (past.new ≡ with_connection (λ c. record c { taken = c.taken ++ bytes.now }) past.old) }
    ensures err { OnErr result (past.new ≡ past.old) }
{
    let mut connections = mem::replace(&mut past.connections, List::new(alloc)).into_vec();
    let last = connections.len() - 1;
    let connection = &mut connections[last];
    let added = connection.taken.append(bytes);
    past.connections = List::from_vec(connections);
    added
}

// Records that nothing is left to be read from the last connection.
pub fn mark_ended(alloc: Global, past: &mut Past)
    requires { 0 < length past.old.connections }
    ensures len { length past.new.connections ≡ length past.old.connections }
    ensures ended { past.new ≡ with_connection (λ c. record c { ended = true }) past.old }
{
    let mut connections = mem::replace(&mut past.connections, List::new(alloc)).into_vec();
    let last = connections.len() - 1;
    let connection = &mut connections[last];
    connection.ended = true;
    past.connections = List::from_vec(connections);
}

// Records what was put on the last connection. An `Err` changes nothing.
pub fn add_put(alloc: Global, past: &mut Past, bytes: &[u8]) -> Result<(), NoMemory>
    requires { 0 < length past.old.connections }
    ensures len { length past.new.connections ≡ length past.old.connections }
    ensures ok { OnOk result (past.new ≡ after_put bytes.now past.old) }
    ensures err { OnErr result (past.new ≡ past.old) }
{
    let mut connections = mem::replace(&mut past.connections, List::new(alloc)).into_vec();
    let last = connections.len() - 1;
    let connection = &mut connections[last];
    let added = connection.put.append(bytes);
    past.connections = List::from_vec(connections);
    added
}

fn logged(alloc: Global, key: &Key, line: &Text) -> Result<Logged, NoMemory>
    ensures { IfOk result (λ logged. logged ≡ record { key = key.now; line = line.now }) }
{
    Ok(Logged {
        key: key.copy(alloc)?,
        line: line.copy(alloc)?,
    })
}

// Records a line that was logged while the last connection was there. An `Err` changes nothing.
pub fn add_line(alloc: Global, past: &mut Past, key: &Key, line: &Text) -> Result<(), NoMemory>
    requires { 0 < length past.old.connections }
    ensures len { length past.new.connections ≡ length past.old.connections }
    ensures ok { OnOk result (past.new ≡ after_line All key.now line.now past.old) }
    ensures err { OnErr result (past.new ≡ past.old) }
{
    let logged = logged(alloc, key, line)?;
    let mut connections = mem::replace(&mut past.connections, List::new(alloc)).into_vec();
    let last = connections.len() - 1;
    let connection = &mut connections[last];
    let added = connection.lines.push(logged);
    past.connections = List::from_vec(connections);
    added
}

// Records a configuration that was kept while the last connection was there. An `Err` changes nothing.
pub fn add_keep(alloc: Global, past: &mut Past, serial: u32, text: &[u8]) -> Result<(), NoMemory>
    requires { 0 < length past.old.connections }
    ensures len { length past.new.connections ≡ length past.old.connections }
    ensures ok { OnOk result (past.new ≡ after_keep All serial text.now past.old) }
    ensures err { OnErr result (past.new ≡ past.old) }
{
    let text = Octets::from_slice(alloc, text)?;
    let mut connections = mem::replace(&mut past.connections, List::new(alloc)).into_vec();
    let last = connections.len() - 1;
    let connection = &mut connections[last];
    let put = connection.put.len() as u64;
    let added = connection.keeps.push(KeepRecord { put, serial, text });
    past.connections = List::from_vec(connections);
    added
}
