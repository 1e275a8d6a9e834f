//! Keys and addresses as words: `:80`, `localhost:2019` and `stdio:0` are addresses, any other word names a log writer.
use crate::words::put;
use cd_addr::write;
use cd_outside::{Address, Key};
use cd_rows::RowFault;
use cd_text::{List, NoMemory, Octets, Text, number_of, parts_of};
use std::alloc::Global;

/// The key of a word.
pub fn key_in(alloc: Global, word: &str) -> Result<Key, RowFault> {
    match found_address(alloc, word)? {
        Some(address) => Ok(Key::Listen(address)),
        None => Ok(Key::Writer(Text::from_str(alloc, word)?)),
    }
}

/// The address of a word.
pub fn address_in(alloc: Global, word: &str) -> Result<Address, RowFault> {
    match found_address(alloc, word)? {
        Some(address) => Ok(address),
        None => Err(RowFault::Malformed("a word that is no address")),
    }
}

fn found_address(alloc: Global, word: &str) -> Result<Option<Address>, NoMemory> {
    let parts = parts_of(alloc, word, ':')?;
    let [host, port] = parts.as_slice() else {
        return Ok(None);
    };
    let Some(port) = port_in(port) else {
        return Ok(None);
    };
    let host = Text::from_str(alloc, host)?;
    Ok(Some(Address { host, port }))
}

fn port_in(word: &str) -> Option<u16> {
    match u16::try_from(number_of(word)?) {
        Ok(port) => Some(port),
        Err(_) => None,
    }
}

/// The keys of these words.
pub fn keys_in(alloc: Global, words: &[&str]) -> Result<List<Key>, RowFault> {
    let mut keys = List::new(alloc);
    for word in words {
        keys.push(key_in(alloc, word)?)?;
    }
    Ok(keys)
}

/// The word of a key.
pub fn key_word(alloc: Global, key: &Key) -> Result<Text, NoMemory> {
    match key {
        Key::Listen(address) => write(alloc, address),
        Key::Writer(name) => name.copy(alloc),
    }
}

/// Adds a key's word at the end.
pub fn put_key(alloc: Global, out: &mut Octets, key: &Key) -> Result<(), NoMemory> {
    let word = key_word(alloc, key)?;
    put(out, word.as_str())
}
