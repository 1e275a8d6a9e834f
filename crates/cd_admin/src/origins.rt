//! By which hosts, and from which origins, the admin API may be asked.
ghost use Rattle.std.specs.Prelude.{◌≡◌, map, IfOk};
ghost use Rattle.std.specs.Result.{IsOk};
ghost use Rattle.cd_text.specs.Gives.{Gives};
ghost use Rattle.cd_admin.specs.Admin.{admin_in, admin_of};
ghost use Rattle.cd_admin.specs.Origins.{admitted, expected, has_scheme, host_test, is_among, local_texts, names, origin_test, text_at, texts_of, without_scheme};

use crate::admin::Admin;
use crate::denial::Denial;
use crate::ending::Ending;
use crate::fields::values_of;
use cd_addr::write;
use cd_outside::Address;
use cd_text::{List, NoMemory, Text, rest_from};
use cd_tree::Tree;
use cd_wire::{Field, front_of};
use std::alloc::Global;

/// Goes on where the configuration enforces no origins, or the request comes by a host and from an origin that it expects.
pub(crate) fn admit(
    alloc: Global,
    tree: &Tree,
    host: &[u8],
    fields: &[Field<'_>],
) -> Result<(), Ending>
    requires { IsOk (admin_in tree.now) }
    ensures { Gives Ending.NoMemory result (admitted (admin_of tree.now) host.now fields.now) }
{
    let admin = Admin::of_tree(alloc, tree)?;
    admit_by(alloc, admin, host, fields)
}

#[tactic(auto, unfolding(crate::specs::Origins::admitted))]
fn admit_by(alloc: Global, admin: Admin, host: &[u8], fields: &[Field<'_>]) -> Result<(), Ending>
    ensures { Gives Ending.NoMemory result (admitted admin host.now fields.now) }
{
    if !admin.enforce_origin {
        return Ok(());
    }
    let entries = expected(alloc, admin)?;
    test_host(entries.as_slice(), host)?;
    let origins = values_of(alloc, fields, "origin")?;
    test_origins(entries.as_slice(), origins.as_slice())
}

fn test_host(entries: &[Text], host: &[u8]) -> Result<(), Ending>
    ensures { result ≡ host_test entries.now host.now }
{
    if is_among(entries, host) {
        Ok(())
    } else {
        Err(Ending::Denied(Denial::OtherHost))
    }
}

fn test_origins(entries: &[Text], origins: &[&[u8]]) -> Result<(), Ending>
    ensures { result ≡ origin_test entries.now (map (λ origin. origin.now) origins.now) }
{
    match origins {
        [] => Ok(()),
        [origin] if is_among(entries, without_scheme(origin)) => Ok(()),
        _ => Err(Ending::Denied(Denial::OtherOrigin)),
    }
}

// ---- what is expected

fn expected(alloc: Global, admin: Admin) -> Result<List<Text>, NoMemory>
    ensures { IfOk result (λ made. made ≡ expected admin) }
{
    let Admin {
        origins,
        listen,
        ..
    } = admin;
    match origins {
        Some(given) => Ok(given),
        None => texts_of(alloc, &listen),
    }
}

fn texts_of(alloc: Global, address: &Address) -> Result<List<Text>, NoMemory>
    ensures { IfOk result (λ made. made ≡ texts_of address.now) }
{
    if address.host.as_str().is_empty() {
        return local_texts(alloc, address.port);
    }
    let mut made = List::new(alloc);
    made.push(write(alloc, address)?)?;
    Ok(made)
}

fn local_texts(alloc: Global, port: u16) -> Result<List<Text>, NoMemory>
    ensures { IfOk result (λ made. made ≡ local_texts port) }
{
    let mut made = List::new(alloc);
    made.push(text_at(alloc, "localhost", port)?)?;
    made.push(text_at(alloc, "127.0.0.1", port)?)?;
    made.push(text_at(alloc, "::1", port)?)?;
    Ok(made)
}

fn text_at(alloc: Global, host: &str, port: u16) -> Result<Text, NoMemory>
    ensures { IfOk result (λ made. made ≡ text_at host.now port) }
{
    let host = Text::from_str(alloc, host)?;
    write(alloc, &Address { host, port })
}

// ---- what is one of them

fn is_among(entries: &[Text], host: &[u8]) -> bool
    ensures { result ≡ is_among entries.now host.now }
{
    entries
        .iter()
        .any(|entry| names(host, entry.as_str().as_bytes()))
}

/// Whether an entry, whose scheme does not count, is this host in any case.
fn names(host: &[u8], entry: &[u8]) -> bool
    ensures { result ≡ names host.now entry.now }
{
    without_scheme(entry).eq_ignore_ascii_case(host)
}

/// The text without `http://` or `https://` in front, in any case.
#[tactic(auto, unfolding(crate::specs::Origins::without_scheme))]
fn without_scheme(text: &[u8]) -> &[u8]
    ensures { result.now ≡ without_scheme text.now }
{
    if has_scheme(b"http://", text) {
        rest_from(text, 7)
    } else if has_scheme(b"https://", text) {
        rest_from(text, 8)
    } else {
        text
    }
}

fn has_scheme(scheme: &[u8], text: &[u8]) -> bool
    ensures { result ≡ has_scheme scheme.now text.now }
{
    front_of(text, scheme.len()).eq_ignore_ascii_case(scheme)
}
