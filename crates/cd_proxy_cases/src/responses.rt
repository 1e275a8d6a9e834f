//! What the bytes of an upstream come to.
//!
//!     {"response": BYTES, "found": BYTES}
//!     {"response": BYTES, "open": true, "found": BYTES}       where more bytes may come
//!     {"response": BYTES, "to_head": true, "found": BYTES}    where the request was HEAD
//!     {"response": BYTES, "pieces": [1000], "found": BYTES}
//!
//! It is `more`, `bad`, or the bytes that a client of HTTP/1.1 is sent for it. The bytes are read whole, and again in pieces of each
//! of the sizes, or byte by byte where there are none.
use cd_proxy::{PassedResponse, Reading, ResponseIntake, response};
use cd_rows::{InPieces, Outcome, RowFault, bytes_at, found_in_pieces, is_true, only};
use cd_text::{NoMemory, Octets};
use cd_tree::Tree;
use cd_wire::render;
use std::alloc::Global;

/// What is found in the bytes of the row.
pub fn response_outcome(alloc: Global, row: &Tree) -> Result<Outcome, RowFault> {
    only(alloc, row, "response open to_head pieces found")?;
    let bytes = bytes_at(alloc, row, "response")?;
    let input = Input {
        bytes: bytes.as_slice(),
        ended: !is_true(row, "open")?,
        to_head: is_true(row, "to_head")?,
    };
    let whole = input.read_whole(alloc)?;
    found_in_pieces(alloc, row, &input, whole)
}

/// The bytes of an upstream.
#[derive(Drop)]
struct Input<'a> {
    bytes: &'a [u8],
    /// No more bytes come.
    ended: bool,
    /// The request was HEAD.
    to_head: bool,
}

impl<'a> Input<'a> {
    fn read_whole(&self, alloc: Global) -> Result<Octets, NoMemory> {
        let read = response(alloc, self.bytes, self.ended, self.to_head)?;
        words_of(alloc, &read, self.to_head)
    }
}

impl<'a> InPieces for Input<'a> {
    fn found(&self, alloc: Global, size: usize) -> Result<Octets, NoMemory> {
        let mut intake = ResponseIntake::new(alloc, self.to_head);
        for piece in self.bytes.chunks(size.max(1)) {
            intake.push(piece)?;
            let read = intake.next(false)?;
            if !matches!(read, Reading::More) {
                return words_of(alloc, &read, self.to_head);
            }
        }
        let read = intake.next(self.ended)?;
        words_of(alloc, &read, self.to_head)
    }
}

fn words_of(alloc: Global, read: &Reading, to_head: bool) -> Result<Octets, NoMemory> {
    match read {
        Reading::Whole(passed) => rendered(alloc, passed, to_head),
        Reading::More => Octets::from_slice(alloc, b"more"),
        Reading::Bad => Octets::from_slice(alloc, b"bad"),
    }
}

fn rendered(alloc: Global, passed: &PassedResponse, to_head: bool) -> Result<Octets, NoMemory> {
    let answer = passed.answer(alloc)?;
    render(alloc, &answer, to_head, false)
}
