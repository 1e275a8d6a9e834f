ghost use Rattle.std.specs.Prelude.{◌≡◌, ◌<◌, ◌≤◌, ◌-◌, IfOk, option_map};
ghost use Rattle.std.specs.List.{list_all};
ghost use Rattle.std.specs.Option.{option_copied};
ghost use Rattle.std.specs.Result.{result_map_both};
ghost use Rattle.cd_text.specs.Gives.{Gives};
ghost use Rattle.cd_addr.specs.declared.limits.TheConstants.{MAX_RANGE_PORTS};
ghost use Rattle.cd_addr.specs.Addresses.{addresses, range_of, cut_at, after_leading, without_network, host_of, in_brackets, no_brackets, is_host_byte, is_ip_byte, is_ip_text, port, ports, from_to};

use crate::fault::AddrFault;
use crate::limits::{MAX_PORT, MAX_RANGE_PORTS};
use crate::range::AddressRange;
use cd_outside::Address;
use cd_text::{List, Text, number_of};
use std::alloc::Global;

/// The addresses that a text writes, as a range: one host, and one port or those of a range.
///
/// A text is an optional network and `/`, a host, `:`, and a port or two joined by `-`, as `tcp/localhost:8080-8089`. The
/// network is `tcp`. A host is empty, or has letters, digits, `.`, `-` and `_`, or is in brackets and has hexadecimal digits, `:` and
/// `.`. BadNetwork says that the network or the host is not so, BadPort that a port is none, and BadRange that a range is
/// empty or has more than `MAX_RANGE_PORTS` ports; the first of these that holds is reported.
#[tactic(auto, unfolding(crate::specs::Addresses::range_of))]
pub fn read_range(alloc: Global, text: &Text) -> Result<AddressRange, AddrFault>
    ensures value { Gives AddrFault.NoMemory result (range_of text.now) }
    ensures rising { IfOk result (λ range. range.first ≤ range.last) }
    ensures few { IfOk result (λ range. range.last - range.first < MAX_RANGE_PORTS) }
{
    let text = without_network(text.as_str())?;
    let (host, ports) = split_host(text)?;
    let (first, last) = port_range(ports)?;
    let host = Text::folded(alloc, host)?;
    Ok(AddressRange { host, first, last })
}

/// The addresses that a text writes, by rising port. The text is as for `read_range`, and so are the errors.
#[tactic(auto, unfolding(crate::specs::Addresses::addresses))]
pub fn read(alloc: Global, text: &Text) -> Result<List<Address>, AddrFault>
    ensures { Gives AddrFault.NoMemory result (addresses text.now) }
{
    let range = read_range(alloc, text)?;
    Ok(range.list(alloc)?)
}

// What stands before and after the first such character.
#[tactic(auto, unfolding(crate::specs::Addresses::cut_at))]
fn cut(text: &str, at: char) -> Option<(&str, &str)>
    requires { at < 128 }
    ensures { option_map (λ x. (x.0.now, x.1.now)) result ≡ cut_at at text.now }
{
    text.split_once(at)
}

// What stands after such a first character.
fn after_leading(text: &str, first: char) -> Option<&str>
    requires { first < 128 }
    ensures { option_copied result ≡ after_leading first text.now }
{
    text.strip_prefix(first)
}

#[tactic(auto, unfolding(crate::specs::Addresses::without_network))]
fn without_network(text: &str) -> Result<&str, AddrFault>
    ensures { result_map_both (λ rest. rest.now) (λ fault. fault) result ≡ without_network text.now }
{
    match cut(text, '/') {
        None => Ok(text),
        Some((network, rest)) if network == "tcp" => Ok(rest),
        Some(_) => Err(AddrFault::BadNetwork),
    }
}

// The host, and what stands after the colon that follows it.
#[tactic(auto, unfolding(crate::specs::Addresses::host_of))]
fn split_host(text: &str) -> Result<(&str, Option<&str>), AddrFault>
    ensures { result_map_both (λ x. (x.0.now, option_copied x.1)) (λ fault. fault) result ≡ host_of text.now }
{
    match after_leading(text, '[') {
        Some(rest) => split_brackets(rest),
        None => split_plain(text),
    }
}

fn split_brackets(rest: &str) -> Result<(&str, Option<&str>), AddrFault>
    ensures { result_map_both (λ x. (x.0.now, option_copied x.1)) (λ fault. fault) result ≡ in_brackets (cut_at 93 rest.now) }
{
    match cut(rest, ']') {
        Some((host, rest)) if is_ip_text(host) => Ok((host, after_leading(rest, ':'))),
        _ => Err(AddrFault::BadNetwork),
    }
}

fn split_plain(text: &str) -> Result<(&str, Option<&str>), AddrFault>
    ensures { result_map_both (λ x. (x.0.now, option_copied x.1)) (λ fault. fault) result ≡ no_brackets (cut_at 58 text.now) text.now }
{
    let (host, ports) = match cut(text, ':') {
        None => (text, None),
        Some((host, ports)) => (host, Some(ports)),
    };
    if !are_host_bytes(host) {
        return Err(AddrFault::BadNetwork);
    }
    Ok((host, ports))
}

fn is_ip_text(host: &str) -> bool
    ensures { result ≡ is_ip_text host.now }
{
    !host.is_empty() && are_ip_bytes(host)
}

fn are_ip_bytes(text: &str) -> bool
    ensures { result ≡ list_all is_ip_byte text.now }
{
    text.as_bytes().iter().all(|byte| byte.is_ascii_hexdigit() || *byte == b':' || *byte == b'.')
}

fn are_host_bytes(text: &str) -> bool
    ensures { result ≡ list_all is_host_byte text.now }
{
    text.as_bytes().iter().all(|byte| {
        byte.is_ascii_alphanumeric() || *byte == b'.' || *byte == b'-' || *byte == b'_'
    })
}

#[tactic(auto, unfolding(crate::specs::Addresses::port))]
fn read_port(text: &str) -> Option<u16>
    ensures { result ≡ port text.now }
{
    match number_of(text) {
        Some(number) if 0 < number && number <= MAX_PORT as u64 => Some(number as u16),
        _ => None,
    }
}

// The first and the last port.
#[tactic(auto, unfolding(crate::specs::Addresses::ports))]
fn port_range(text: Option<&str>) -> Result<(u16, u16), AddrFault>
    ensures value { result ≡ ports (option_copied text.entry) }
    ensures rising { IfOk result (λ range. range.0 ≤ range.1) }
    ensures few { IfOk result (λ range. range.1 - range.0 < MAX_RANGE_PORTS) }
{
    let Some(text) = text else {
        return Err(AddrFault::BadPort);
    };
    match cut(text, '-') {
        None => from_to(read_port(text), read_port(text)),
        Some((first, last)) => from_to(read_port(first), read_port(last)),
    }
}

fn from_to(first: Option<u16>, last: Option<u16>) -> Result<(u16, u16), AddrFault>
    ensures value { result ≡ from_to first last }
    ensures rising { IfOk result (λ range. range.0 ≤ range.1) }
    ensures few { IfOk result (λ range. range.1 - range.0 < MAX_RANGE_PORTS) }
{
    let (Some(first), Some(last)) = (first, last) else {
        return Err(AddrFault::BadPort);
    };
    if last < first || last - first >= MAX_RANGE_PORTS {
        return Err(AddrFault::BadRange);
    }
    Ok((first, last))
}
