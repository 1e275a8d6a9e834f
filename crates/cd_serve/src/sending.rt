//! What is sent for an answer, and whether the connection closes then.
ghost use Rattle.std.specs.Prelude.{◌≡◌, IfOk, OnOk};
ghost use Rattle.cd_serve.specs.Meanings.{sent, says_close};

use cd_text::{NoMemory, Octets};
use cd_wire::{Answer, Request, render, render_over};
use std::alloc::Global;
use std::mem::replace;

/// How many bytes of memory are kept from one answer to the next, at most.
pub(crate) const MAX_SPARE_BYTES: usize = 4_096;

/// The bytes of an answer to the request.
pub fn sent(alloc: Global, request: &Request, answer: &Answer<'_>) -> Result<Octets, NoMemory>
    ensures { IfOk result (λ bytes. bytes ≡ sent request.now answer.now) }
{
    render(alloc, answer, request.is_head(), request.close())
}

/// The same, in place of what the vector holds.
pub(crate) fn write_sent(
    alloc: Global,
    out: &mut Vec<u8>,
    request: &Request,
    answer: &Answer<'_>,
) -> Result<(), NoMemory>
    ensures { OnOk result (out.new.items ≡ sent request.now answer.now) }
{
    render_over(alloc, out, answer, request.is_head(), request.close())
}

/// Gives the memory of a large answer back, so that a connection that rests keeps little.
pub(crate) fn spare(alloc: Global, out: &mut Vec<u8>) {
    if out.capacity() > MAX_SPARE_BYTES {
        let _ = replace(out, Vec::new(alloc));
    }
}

/// Whether the connection closes after the answer: the answer or the request says so.
pub fn says_close(request: &Request, answer: &Answer<'_>) -> bool
    ensures { result ≡ says_close request.now answer.now }
{
    answer.close || request.close()
}
