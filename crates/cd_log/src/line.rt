//! The line of an answer in an access log.
ghost use Rattle.std.specs.Prelude.{◌≡◌, ◌<◌, ◌++◌, ◌∷◌, [], length, map, decimal, string_bytes, IfOk, OnOk};
ghost use Rattle.cd_log.specs.Lines.{access_line, body_sent, name_text, visible};

use cd_text::{NoMemory, Text};
use cd_tree::{SharedText, Tree, print_ordered};
use cd_wire::{Answer, Request};
use itoa::Buffer;
use std::alloc::Global;

/// The line of an answer of the server of this name, with its end.
#[tactic(auto, unfolding(crate::specs::Lines::access_line))]
pub(crate) fn access_line(
    alloc: Global,
    server: &Text,
    request: &Request,
    answer: &Answer<'_>,
) -> Result<Text, NoMemory>
    ensures { IfOk result (λ line. line ≡ access_line server.now request.now answer.now) }
{
    let mut line = name_text(alloc, server)?;
    put_bytes(&mut line, request.method())?;
    put_bytes(&mut line, request.target())?;
    put_number(&mut line, usize::from(answer.status))?;
    put_number(&mut line, bytes_sent(request, answer))?;
    line.push('\n')?;
    Ok(Text::from_string(line))
}

// The name as JSON text.
fn name_text(alloc: Global, server: &Text) -> Result<String, NoMemory>
    ensures { IfOk result (λ text. string_bytes text ≡ name_text server.now) }
{
    let text = print_ordered(
        alloc,
        &Tree::Text(SharedText::from_str(alloc, server.as_str())?),
    )?;
    Ok(text.into_string())
}

// A space and these bytes, each as it is shown.
fn put_bytes(line: &mut String, bytes: &[u8]) -> Result<(), NoMemory>
    ensures { OnOk result (string_bytes line.new ≡ string_bytes line.old ++ 32 ∷ map visible bytes.now) }
{
    line.push(' ')?;
    put_visible(line, bytes)
}

fn put_visible(line: &mut String, bytes: &[u8]) -> Result<(), NoMemory>
    ensures { OnOk result (string_bytes line.new ≡ string_bytes line.old ++ map visible bytes.now) }
{
    for byte in bytes {
        put_byte(line, visible(*byte))?;
    }
    Ok(())
}

#[tactic(auto, using(std::proofs::lemmas::Str::encode_ascii))]
fn put_byte(line: &mut String, byte: u8) -> Result<(), NoMemory>
    requires { byte < 128 }
    ensures { OnOk result (string_bytes line.new ≡ string_bytes line.old ++ byte ∷ []) }
{
    line.push(char::from(byte))?;
    Ok(())
}

fn visible(byte: u8) -> u8
    ensures is { result ≡ visible byte }
    ensures ascii { result < 128 }
{
    if byte.is_ascii_graphic() { byte } else { b'?' }
}

// A space and this number.
fn put_number(line: &mut String, number: usize) -> Result<(), NoMemory>
    ensures { OnOk result (string_bytes line.new ≡ string_bytes line.old ++ 32 ∷ decimal number) }
{
    let mut digits = Buffer::new();
    line.push(' ')?;
    line.push_str(digits.format(number))?;
    Ok(())
}

// How many bytes of the body are sent.
fn bytes_sent(request: &Request, answer: &Answer<'_>) -> usize
    ensures { result ≡ length (body_sent request.now answer.now) }
{
    if request.is_head() || answer.status == 204 || answer.status == 304 {
        0
    } else {
        answer.body.len()
    }
}
