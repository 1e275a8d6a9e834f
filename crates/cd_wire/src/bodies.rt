//! The body after a head: so many bytes, or chunks.
//!
//! A body may come in any pieces, and what was read of it need not be kept: the clauses speak of all its bytes, of which a caller
//! gives only those that are not read yet (specs/Reading.antt).
//!
//!     dropped by the caller            text
//!     the line and data of chunks      more chunks   the beginning of one
//!                                      0             Going
ghost use Rattle.std.specs.Prelude.{◌≡◌, ℕ, ◌≤◌, ◌+◌, List, [], length, take, drop, IfOk, OnErr};
ghost use Rattle.cd_wire.specs.Reading.{framing_of, HasChunks, IsBodyKept, IsBodyRead};

use crate::chunks::{ChunkRead, read_chunk};
use crate::fault::WireFault;
use crate::framing::Framing;
use crate::texts::rest_from;
use cd_text::{NoMemory, Octets};
use std::alloc::Global;
use std::mem;

/// What is known of a body that has not come whole.
#[derive(Drop)]
pub enum Body {
    /// It has so many bytes, and none was read.
    Sized(usize),
    /// It comes in chunks, and those that were read have this data.
    Chunks(Octets),
}

/// What a text begins with where a body goes on.
#[derive(Drop)]
pub enum BodyRead {
    /// What is left of the body: all its bytes without chunk lines, and how many bytes of the text it has.
    Whole(Octets, usize),
    /// No end of the body yet. So many bytes of the text were read, and need not be given again.
    Going(usize),
    /// A fault.
    Refused(WireFault),
}

/// Nothing was read of the body yet.
pub fn unread(alloc: Global, framing: Framing) -> Body
    ensures framing { framing ≡ framing_of result }
    ensures kept { IsBodyKept [] result }
{
    match framing {
        Framing::Length(size) => Body::Sized(size),
        Framing::Chunked => Body::Chunks(Octets::new(alloc)),
    }
}

fn read_sized(alloc: Global, text: &[u8], size: usize) -> Result<BodyRead, NoMemory>
    ensures { IfOk result (IsBodyRead (Body.Sized size) text.now (Body.Sized size)) }
{
    if text.len() < size {
        Ok(BodyRead::Going(0))
    } else {
        Ok(BodyRead::Whole(Octets::from_slice(alloc, &text[..size])?, size))
    }
}

// Leaves the first bytes alone, so many of them.
fn cut_back(alloc: Global, found: &mut Octets, len: usize)
    ensures { found.new ≡ take len found.old }
{
    let mut bytes = mem::replace(found, Octets::new(alloc)).into_vec();
    bytes.truncate(len);
    *found = Octets::from_vec(bytes);
}

// Reads on in chunks, whose data so far is given.
fn read_chunks(alloc: Global, text: &[u8], found: &mut Octets) -> Result<BodyRead, NoMemory>
    requires { (before : List ℕ) × HasChunks before found.old [] }
    ensures ok { IfOk result (IsBodyRead (Body.Chunks found.old) text.now (Body.Chunks found.new)) }
    ensures err { OnErr result (found.new ≡ found.old) }
{
    let had = found.len();
    let mut at = 0;
    'chunks: loop {
        let rest = rest_from(text, at);
        let chunk = read_chunk(rest, found.len());
        match chunk {
            ChunkRead::Data(start, size, next) => {
                let Ok(()) = found.append(part_of(rest, start, size)) else {
                    cut_back(alloc, found, had);
                    return Err(NoMemory);
                };
                at += next;
            }
            ChunkRead::Last(next) => {
                let all = mem::replace(found, Octets::new(alloc));
                return Ok(BodyRead::Whole(all, at + next));
            }
            ChunkRead::Partial => return Ok(BodyRead::Going(at)),
            ChunkRead::Refused(fault) => {
                cut_back(alloc, found, had);
                return Ok(BodyRead::Refused(fault));
            }
        }
    }
}

// So many bytes from a place on.
fn part_of(text: &[u8], start: usize, size: usize) -> &[u8]
    requires { start + size ≤ length text.now }
    ensures { result.now ≡ take size (drop start text.now) }
{
    let rest = rest_from(text, start);
    &rest[..size]
}

/// Reads a body on, of which this is known, in the text that follows what was read.
///
/// After `Going` the caller keeps the body and may drop what was read. After a fault and `NoMemory` the body is as before; what
/// is left of it after `Whole` has no meaning.
#[inline(always)]
pub fn read_body(alloc: Global, text: &[u8], body: &mut Body) -> Result<BodyRead, NoMemory>
    requires { (before : List ℕ) × IsBodyKept before body.old }
    ensures ok { IfOk result (IsBodyRead body.old text.now body.new) }
    ensures err { OnErr result (body.new ≡ body.old) }
{
    match body {
        Body::Sized(size) => read_sized(alloc, text, *size),
        Body::Chunks(found) => read_chunks(alloc, text, found),
    }
}
