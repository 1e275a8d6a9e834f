//! Addresses.
//!
//!     {"addresses": BYTES, "found": ADDRESSES}          each as HOST|PORT, with a comma and a space between two
//!     {"addresses": BYTES, "refused": WORDS}            the words of the fault
//!     {"address": BYTES, "port": N, "found": BYTES}     the text of the address with this host and this port
use crate::words::{found, put, text_in};
use cd_addr::{AddrFault, read, write};
use cd_outside::Address;
use cd_rows::{Outcome, RowFault, bytes_at, find, number_of, only, refuses, says};
use cd_text::{NoMemory, Octets, Text};
use cd_tree::Tree;
use std::alloc::Global;

pub fn addresses_outcome(alloc: Global, row: &Tree) -> Result<Outcome, RowFault> {
    only(alloc, row, "addresses found refused")?;
    let text = text_at(alloc, row, "addresses")?;
    match read(alloc, &text) {
        Ok(addresses) => Ok(found(words(alloc, addresses.as_slice())?)),
        Err(AddrFault::NoMemory) => Err(RowFault::NoMemory),
        Err(fault) => {
            let words = format!(in alloc; "{fault}")?;
            refuses(alloc, words.as_str())
        }
    }
}

pub fn address_outcome(alloc: Global, row: &Tree) -> Result<Outcome, RowFault> {
    only(alloc, row, "address port found")?;
    let host = text_at(alloc, row, "address")?;
    let Some(port) = find(row, "port") else {
        return Err(RowFault::Malformed("a port is missing"));
    };
    let port = number_of(port)?;
    let text = write(alloc, &Address { host, port })?;
    says(alloc, "found", text.as_str())
}

fn text_at(alloc: Global, row: &Tree, name: &str) -> Result<Text, RowFault> {
    let bytes = bytes_at(alloc, row, name)?;
    Ok(Text::from_str(alloc, text_in(bytes.as_slice())?)?)
}

fn words(alloc: Global, addresses: &[Address]) -> Result<Octets, NoMemory> {
    let mut out = Octets::new(alloc);
    for address in addresses {
        put_address(alloc, &mut out, address)?;
    }
    Ok(out)
}

fn put_address(alloc: Global, out: &mut Octets, address: &Address) -> Result<(), NoMemory> {
    if !out.is_empty() {
        put(out, ", ")?;
    }
    put(out, address.host.as_str())?;
    let port = address.port;
    let words = format!(in alloc; "|{port}")?;
    put(out, words.as_str())
}
