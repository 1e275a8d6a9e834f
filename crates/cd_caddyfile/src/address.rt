//! The addresses of sites.
ghost use Rattle.std.specs.Prelude.{◌≡◌, ℕ, min, length, map, not, IfOk};
ghost use Rattle.std.specs.Char.{is_ascii_digit, to_ascii_lowercase};
ghost use Rattle.std.specs.List.{list_all};
ghost use Rattle.cd_caddyfile.specs.Addresses.{begins_with, is_host_byte, is_host, is_decimal, number, port_of, at_port, port_alone, host_alone, host_then_port, host_and_port, address_in, address_of};

use cd_text::{NoMemory, Octets, rest_from, split_at_byte};
use std::alloc::Global;

/// The address of a site.
#[derive(Drop)]
pub struct Address {
    /// From 1 to 65535.
    pub port: u16,
    /// In lower case, where one is given.
    pub host: Option<Octets>,
}

/// The address that the words before the block of a site are: `:PORT`, `http://HOST`, `http://HOST:PORT` or `http://:PORT`,
/// with port 80 where none is given. `None` where they are none.
pub fn address_of(alloc: Global, words: &[Octets]) -> Result<Option<Address>, NoMemory>
    ensures { IfOk result (λ found. found ≡ address_of words.now) }
{
    match words {
        [text] => address_in(alloc, text.as_slice()),
        _ => Ok(None),
    }
}

fn address_in(alloc: Global, text: &[u8]) -> Result<Option<Address>, NoMemory>
    ensures { IfOk result (λ found. found ≡ address_in text.now) }
{
    if text.starts_with(b"http://".as_slice()) {
        host_and_port(alloc, rest_from(text, 7))
    } else {
        Ok(port_alone(text))
    }
}

fn host_and_port(alloc: Global, text: &[u8]) -> Result<Option<Address>, NoMemory>
    ensures { IfOk result (λ found. found ≡ host_and_port text.now) }
{
    match split_at_byte(text, b':') {
        None => host_alone(alloc, text),
        Some((host, port)) => host_then_port(alloc, host, port, text),
    }
}

fn host_alone(alloc: Global, text: &[u8]) -> Result<Option<Address>, NoMemory>
    ensures { IfOk result (λ found. found ≡ host_alone text.now) }
{
    if is_host(text) {
        with_host(alloc, text, Some(80))
    } else {
        Ok(None)
    }
}

fn host_then_port(
    alloc: Global,
    host: &[u8],
    port: &[u8],
    text: &[u8],
) -> Result<Option<Address>, NoMemory>
    ensures { IfOk result (λ found. found ≡ host_then_port host.now port.now text.now) }
{
    if is_host(host) {
        with_host(alloc, host, port_of(port))
    } else {
        Ok(port_alone(text))
    }
}

fn with_host(alloc: Global, host: &[u8], port: Option<u16>) -> Result<Option<Address>, NoMemory>
    ensures { IfOk result (λ found. found ≡ at_port (Some (map to_ascii_lowercase host.now)) port) }
{
    match port {
        None => Ok(None),
        Some(port) => {
            let host = Octets::from_vec(host.to_ascii_lowercase(alloc)?);
            Ok(Some(Address {
                port,
                host: Some(host),
            }))
        }
    }
}

// `:PORT`
fn port_alone(text: &[u8]) -> Option<Address>
    ensures { result ≡ port_alone text.now }
{
    match text {
        [b':', rest @ ..] => Some(Address {
            port: port_of(rest)?,
            host: None,
        }),
        _ => None,
    }
}

fn is_host(text: &[u8]) -> bool
    ensures { result ≡ is_host text.now }
{
    text.len() != 0 && are_host_bytes(text)
}

fn are_host_bytes(text: &[u8]) -> bool
    ensures { result ≡ list_all is_host_byte text.now }
{
    text.iter().all(|byte| is_host_byte(*byte))
}

fn is_host_byte(byte: u8) -> bool
    ensures { result ≡ is_host_byte byte }
{
    byte.is_ascii_alphanumeric()
        || (byte == b'.' || (byte == b'-' || (byte == b'_' || byte == b'*')))
}

// A port from 1 to 65535, other than 443, which is the port of HTTPS.
fn port_of(text: &[u8]) -> Option<u16>
    ensures { result ≡ port_of text.now }
{
    if !is_decimal(text) {
        return None;
    }
    let number = number(text);
    if number <= 65535 && number != 443 {
        Some(number as u16)
    } else {
        None
    }
}

fn is_decimal(text: &[u8]) -> bool
    ensures { result ≡ is_decimal text.now }
{
    text.len() != 0 && (are_digits(text) && !begins_with(b'0', text))
}

/// Whether a text has no bytes but digits.
pub(crate) fn are_digits(text: &[u8]) -> bool
    ensures { result ≡ list_all is_ascii_digit text.now }
{
    text.iter().all(|byte| byte.is_ascii_digit())
}

/// Whether a text begins with a byte.
pub(crate) fn begins_with(byte: u8, text: &[u8]) -> bool
    ensures { result ≡ begins_with byte text.now }
{
    match text {
        [first, ..] => *first == byte,
        [] => false,
    }
}

// The number that digits write, or 65536 where it is larger.
#[tactic(auto, using(crate::proofs::AddressSteps::number_take))]
fn number(digits: &[u8]) -> u32
    ensures { result ≡ min (number 0 digits.now) 65536 }
{
    let mut value = 0u32;
    for digit in digits {
        value = (value * 10 + u32::from(digit.saturating_sub(b'0'))).min(65536);
    }
    value
}
