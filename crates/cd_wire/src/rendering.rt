ghost use Rattle.std.specs.Prelude.{◌≡◌, ◌≤◌, ◌||◌, ◌&&◌, not, [], ◌++◌, length, IfOk, OnOk, map, filter, true, decimal, if◌then◌else◌};
ghost use Rattle.std.specs.List.{flat_map};
ghost use Rattle.std.specs.Str.{str_to_ascii_lowercase};
ghost use Rattle.cd_wire.specs.Render.{has_name, is_sent, by_name, titled, clean_byte, field_line, has_body, status_line, length_line, close_line, phrase_of, reason_of, render};

use crate::answer::Answer;
use crate::lines::put_sent_lines;
use cd_text::{NoMemory, Octets};
use http::StatusCode;
use itoa::Buffer;
use std::alloc::Global;

/// Writes bytes.
pub(crate) fn put(out: &mut Vec<u8>, bytes: &[u8]) -> Result<(), NoMemory>
    ensures { OnOk result (out.new.items ≡ out.old.items ++ bytes.now) }
{
    out.extend_from_slice(bytes)?;
    Ok(())
}

fn put_number(out: &mut Vec<u8>, number: usize) -> Result<(), NoMemory>
    ensures { OnOk result (out.new.items ≡ out.old.items ++ decimal number) }
{
    let mut digits = Buffer::new();
    put(out, digits.format(number).as_bytes())
}

#[tactic(auto, unfolding(crate::specs::Render::phrase_of))]
fn phrase_of(status: StatusCode) -> &'static str
    ensures { result.now ≡ phrase_of status }
{
    status.canonical_reason().unwrap_or("")
}

/// The phrase that goes with a status (RFC 9110, section 15), and nothing where it has none.
#[tactic(auto, unfolding(crate::specs::Render::reason_of))]
pub fn reason_of(status: u16) -> &'static str
    ensures { result.now ≡ reason_of status }
{
    match StatusCode::from_u16(status) {
        Ok(status) => phrase_of(status),
        Err(_) => "",
    }
}

// The usual one is written at once.
fn put_ok(out: &mut Vec<u8>) -> Result<(), NoMemory>
    ensures { OnOk result (out.new.items ≡ out.old.items ++ status_line 200) }
{
    put(out, b"HTTP/1.1 200 OK\r\n")
}

#[tactic(auto, unfolding(crate::specs::Render::status_line))]
fn put_any(out: &mut Vec<u8>, status: u16) -> Result<(), NoMemory>
    ensures { OnOk result (out.new.items ≡ out.old.items ++ status_line status) }
{
    put(out, b"HTTP/1.1 ")?;
    put_number(out, usize::from(status))?;
    put(out, b" ")?;
    put(out, reason_of(status).as_bytes())?;
    put(out, b"\r\n")
}

fn put_status(out: &mut Vec<u8>, status: u16) -> Result<(), NoMemory>
    ensures { OnOk result (out.new.items ≡ out.old.items ++ status_line status) }
{
    if status == 200 {
        put_ok(out)
    } else {
        put_any(out, status)
    }
}

fn has_body(status: u16) -> bool
    ensures { result ≡ has_body status }
{
    status != 204 && status != 304
}

#[tactic(auto, unfolding(crate::specs::Render::length_line))]
fn put_length(out: &mut Vec<u8>, answer: &Answer<'_>) -> Result<(), NoMemory>
    ensures { OnOk result (out.new.items ≡ out.old.items ++ length_line answer.now) }
{
    if has_body(answer.status) {
        put(out, b"Content-Length: ")?;
        put_number(out, answer.body.len())?;
        put(out, b"\r\n")
    } else {
        Ok(())
    }
}

#[tactic(auto, unfolding(crate::specs::Render::close_line))]
fn put_close(out: &mut Vec<u8>, close: bool) -> Result<(), NoMemory>
    ensures { OnOk result (out.new.items ≡ out.old.items ++ close_line close) }
{
    if close {
        put(out, b"Connection: close\r\n")
    } else {
        Ok(())
    }
}

fn put_body(out: &mut Vec<u8>, answer: &Answer<'_>, head: bool) -> Result<(), NoMemory>
    ensures { OnOk result (out.new.items ≡ out.old.items
        ++ (if not head && has_body answer.now.status then answer.now.body else [])) }
{
    if !head && has_body(answer.status) {
        put(out, answer.body.as_slice())
    } else {
        Ok(())
    }
}

// How many bytes an answer with few fields has at most, so that they are written without moving.
fn usual_len(answer: &Answer<'_>, head: bool) -> usize {
    let room = 512;
    if head {
        room
    } else {
        answer.body.len().saturating_add(room)
    }
}

/// The bytes of an answer (RFC 9112, sections 4 to 6).
///
/// `head` says that the request was a HEAD, which gets no body, and `close` that it wants the connection closed. Fields go by
/// rising name, and equal names in their order, with each word of a name begun by a capital. `Content-Length` is written
/// here, but not for 204 and 304, which have no body either, and `Connection: close` where either side closes.
pub fn render(
    alloc: Global,
    answer: &Answer<'_>,
    head: bool,
    close: bool,
) -> Result<Octets, NoMemory>
    ensures { IfOk result (λ bytes. bytes ≡ render answer.now head close) }
{
    let mut out = Vec::new(alloc);
    render_over(alloc, &mut out, answer, head, close)?;
    Ok(Octets::from_vec(out))
}

/// The same, in place of what the vector holds. It takes no memory where the vector has room and the fields are few.
#[tactic(auto, unfolding(crate::specs::Render::render))]
pub fn render_over(
    alloc: Global,
    out: &mut Vec<u8>,
    answer: &Answer<'_>,
    head: bool,
    close: bool,
) -> Result<(), NoMemory>
    ensures { OnOk result (out.new.items ≡ render answer.now head close) }
{
    out.clear();
    out.reserve(usual_len(answer, head))?;
    put_status(out, answer.status)?;
    put_sent_lines(alloc, out, answer.fields.as_slice())?;
    put_length(out, answer)?;
    put_close(out, answer.close || close)?;
    put(out, b"\r\n")?;
    put_body(out, answer, head)
}
