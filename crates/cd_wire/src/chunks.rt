//! The chunks of a body (RFC 9112, section 7.1).
//!
//!     line    data             CR LF   the next chunk
//!     0       start            ..      next
ghost use Rattle.std.specs.Prelude.{◌≡◌, ◌≤◌, length, drop};
ghost use Rattle.cd_wire.specs.declared.limits.TheConstants.{MAX_BODY_BYTES};
ghost use Rattle.cd_wire.specs.Chunks.{IsCrlfRead, IsLineRead, IsChunkRead};

use crate::fault::WireFault;
use crate::limits::{MAX_BODY_BYTES, MAX_CHUNK_LINE_BYTES};
use crate::texts::front_of;
use httparse::{Status, parse_chunk_size};

/// What a text begins with where a chunk is to stand, and so many bytes of the body came before it.
#[derive(Drop)]
pub(crate) enum ChunkRead {
    /// A chunk with data, which has this place and this size, and the place of the next chunk.
    Data(usize, usize, usize),
    /// The last chunk, and the place of what follows the body.
    Last(usize),
    /// Not yet a whole chunk.
    Partial,
    /// A fault.
    Refused(WireFault),
}

// What a text begins with where the line of a chunk is to stand.
#[derive(Drop)]
pub(crate) enum LineRead {
    // A line of so many bytes, for so many bytes of data.
    Whole(usize, usize),
    // A line for more data than the body may have.
    TooGreat,
    // Not yet a whole line.
    Partial,
    // None, whatever follows; or one that is too long.
    Refused,
}

// What a text begins with where CR LF is to stand.
#[derive(Drop)]
pub(crate) enum CrlfRead {
    Whole,
    Partial,
    Other,
}

// What stands from a place on, or nothing where the text ends before it.
fn after(text: &[u8], at: usize) -> &[u8]
    ensures { result.now ≡ drop at text.now }
{
    if text.len() < at {
        &text[text.len()..]
    } else {
        &text[at..]
    }
}

fn read_crlf(text: &[u8]) -> CrlfRead
    ensures { IsCrlfRead text.now result }
{
    match text {
        [b'\r', b'\n', ..] => CrlfRead::Whole,
        [] => CrlfRead::Partial,
        [b'\r'] => CrlfRead::Partial,
        _ => CrlfRead::Other,
    }
}

// The line of a chunk with so many bytes of data at most.
fn read_line(text: &[u8], most: usize) -> LineRead
    requires { most ≤ MAX_BODY_BYTES }
    ensures { IsLineRead most text.now result }
{
    match parse_chunk_size(front_of(text, MAX_CHUNK_LINE_BYTES)) {
        Ok(Status::Complete((len, size))) => {
            if size > most as u64 {
                LineRead::TooGreat
            } else {
                LineRead::Whole(len, size as usize)
            }
        }
        Ok(Status::Partial) => {
            if text.len() >= MAX_CHUNK_LINE_BYTES {
                LineRead::Refused
            } else {
                LineRead::Partial
            }
        }
        Err(_) => LineRead::Refused,
    }
}

/// The chunk at the front, where so many bytes of the body came before.
pub(crate) fn read_chunk(text: &[u8], before: usize) -> ChunkRead
    requires { before ≤ MAX_BODY_BYTES }
    ensures { IsChunkRead before text.now result }
{
    let line = read_line(text, MAX_BODY_BYTES - before);
    match line {
        LineRead::Whole(len, size) => {
            let tail = after(after(text, len), size);
            let crlf = read_crlf(tail);
            match crlf {
                CrlfRead::Whole if size == 0 => ChunkRead::Last(len + 2),
                CrlfRead::Whole => ChunkRead::Data(len, size, len + size + 2),
                CrlfRead::Partial => ChunkRead::Partial,
                CrlfRead::Other => ChunkRead::Refused(WireFault::BadLength),
            }
        }
        LineRead::TooGreat => ChunkRead::Refused(WireFault::BodyTooLong),
        LineRead::Partial => ChunkRead::Partial,
        LineRead::Refused => ChunkRead::Refused(WireFault::BadLength),
    }
}
