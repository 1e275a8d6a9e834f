//! The lines that go to standard error, beside those of a run.
ghost use Rattle.std.specs.Prelude.{◌≡◌, ◌++◌, IfOk, codes};
ghost use Rattle.cd_addr.specs.Addresses.{written};
ghost use Rattle.cd_stdio.specs.declared.lines.TheConstants.{HTTPS_PORT};
ghost use Rattle.cd_stdio.specs.Lines.{served_at, caused, thing_of};

use crate::escaping::escaped;
use cd_addr::write;
use cd_outside::{Address, Key};
use cd_text::{NoMemory, Text};
use std::alloc::Global;

/// The port at which clients expect HTTPS (RFC 9110, section 4.2.2).
pub const HTTPS_PORT: u16 = 443;

/// The number, which the code cites by name.
pub fn https_port_is()
    ensures { HTTPS_PORT ≡ 443 }
{}

/// The line that says that the server listens at an address, and that it serves plain HTTP there.
pub fn listening_line(alloc: Global, address: &Address) -> Result<Text, NoMemory>
    ensures { IfOk result (λ line. line ≡ codes "listening on " ++ written address.now ++ served_at address.now.port ++ codes "\n") }
{
    let text = write(alloc, address)?;
    let text = text.as_str();
    let served = served_at(address.port);
    let line = format!(in alloc; "listening on {text}{served}\n")?;
    Ok(Text::from_string(line))
}

fn served_at(port: u16) -> &'static str
    ensures { result.now ≡ served_at port }
{
    if port == HTTPS_PORT {
        " (plain HTTP; HTTPS is not served)"
    } else {
        " (plain HTTP)"
    }
}

/// The line that says why something has failed: what it is, and the words of the system. It has no control character but its end.
pub fn caused_line(alloc: Global, what: &str, words: &str) -> Result<Text, NoMemory>
    ensures { IfOk result (λ line. line ≡ caused what.now words.now) }
{
    let what = escaped(alloc, what)?;
    let what = what.as_str();
    let words = escaped(alloc, words)?;
    let words = words.as_str();
    let line = format!(in alloc; "caddy_run: {what}: {words}\n")?;
    Ok(Text::from_string(line))
}

/// The same of a key: the address or the log writer that it names, and the words of the system.
pub fn key_line(alloc: Global, key: &Key, words: &str) -> Result<Text, NoMemory>
    ensures { IfOk result (λ line. line ≡ caused (thing_of key.now) words.now) }
{
    let what = thing_of(alloc, key)?;
    caused_line(alloc, what.as_str(), words)
}

fn thing_of(alloc: Global, key: &Key) -> Result<Text, NoMemory>
    ensures { IfOk result (λ thing. thing ≡ thing_of key.now) }
{
    match key {
        Key::Listen(address) => address_words(alloc, address),
        Key::Writer(name) => writer_words(alloc, name),
    }
}

fn address_words(alloc: Global, address: &Address) -> Result<Text, NoMemory>
    ensures { IfOk result (λ words. words ≡ codes "listen " ++ written address.now) }
{
    let text = write(alloc, address)?;
    let text = text.as_str();
    let words = format!(in alloc; "listen {text}")?;
    Ok(Text::from_string(words))
}

fn writer_words(alloc: Global, name: &Text) -> Result<Text, NoMemory>
    ensures { IfOk result (λ words. words ≡ codes "log writer " ++ name.now) }
{
    let name = name.as_str();
    let words = format!(in alloc; "log writer {name}")?;
    Ok(Text::from_string(words))
}
