ghost use Rattle.std.specs.Prelude.{◌≡◌, ◌<◌, ◌≤◌, ◌+◌, ◌^◌, [], length, take, min};
ghost use Rattle.cd_outside.specs.Pieces.{not_empty, first_piece, left_after};
ghost use Rattle.cd_outside.specs.Places.{left_of, piece_at};

use cd_text::{List, Octets};
use std::marker::Model;

/// Pieces that are read one after another. Contracts see those of which bytes are left: of the first what is left of it.
#[derive(Debug, Drop)]
pub struct Pieces {
    pieces: List<Octets>,
    // the piece that is read, and how many of its bytes were read
    next: usize,
    offset: usize,
}

impl Model for Pieces {
    ghost use Rattle.std.specs.Prelude.{List, ℕ, ◌≤◌, length};
    ghost use Rattle.cd_outside.specs.Places.{left_of, piece_at};

    ghost Value = { List (List ℕ) };

    ghost view = { λ p. left_of p.pieces p.next p.offset };

    ghost invariant = { λ p. (p.next ≤ length p.pieces) × (p.offset ≤ length (piece_at p.pieces p.next)) };
}

impl Pieces {
    /// Nothing was read yet. Empty pieces are passed over.
    pub fn new(pieces: List<Octets>) -> Pieces
        ensures { result ≡ not_empty pieces }
    {
        Pieces {
            pieces,
            next: 0,
            offset: 0,
        }
    }

    /// Copies what is left of the first piece into the front of `into`, as far as there is room, and says how many bytes that
    /// are: 0 only at the end. It takes nothing.
    pub fn fill(&mut self, into: &mut [u8]) -> usize
        requires { 0 < length into.old }
        ensures count { result ≡ min (length (first_piece self.old)) (length into.new) }
        ensures bytes { take result into.new ≡ take result (first_piece self.old) }
        ensures end { result ≡ 0 → self.old ≡ [] }
        ensures left { self.new ≡ self.old }
    {
        skip(self.pieces.as_slice(), &mut self.next, &mut self.offset);
        let left = at_hand(self.pieces.as_slice(), self.next, self.offset);
        copy_front(left, into)
    }

    /// Takes so many bytes of the first piece.
    pub fn advance(&mut self, count: usize)
        requires { count ≤ length (first_piece self.old) }
        ensures { self.new ≡ left_after count self.old }
    {
        skip(self.pieces.as_slice(), &mut self.next, &mut self.offset);
        let left = at_hand(self.pieces.as_slice(), self.next, self.offset);
        prove!(count <= left.len());
        self.offset += count;
    }

    /// Reads what is left of the first piece into the front of `into`, as far as there is room, and says how many bytes that
    /// were: 0 only at the end.
    pub fn read(&mut self, into: &mut [u8]) -> usize
        requires { 0 < length into.old }
        ensures count { result ≡ min (length (first_piece self.old)) (length into.new) }
        ensures bytes { take result into.new ≡ take result (first_piece self.old) }
        ensures end { result ≡ 0 → self.old ≡ [] }
        ensures left { self.new ≡ left_after result self.old }
    {
        let count = self.fill(into);
        self.advance(count);
        count
    }
}

// Passes over the pieces of which nothing is left.
fn skip(pieces: &[Octets], next: &mut usize, offset: &mut usize)
    requires inside { next.old ≤ length pieces.now }
    requires offset { offset.old ≤ length (piece_at pieces.now next.old) }
    ensures inside { next.new ≤ length pieces.now }
    ensures offset { offset.new ≤ length (piece_at pieces.now next.new) }
    ensures left { left_of pieces.now next.new offset.new ≡ left_of pieces.now next.old offset.old }
    ensures some { next.new < length pieces.now → offset.new < length (piece_at pieces.now next.new) }
{
    while let Some(piece) = pieces.get(*next)
        && piece.len() == *offset
    {
        *next += 1;
        *offset = 0;
    }
}

// What is left of the first piece of which something is left, where those before it were passed over.
fn at_hand(pieces: &[Octets], next: usize, offset: usize) -> &[u8]
    requires offset { offset ≤ length (piece_at pieces.now next) }
    requires some { next < length pieces.now → offset < length (piece_at pieces.now next) }
    ensures left { result.now ≡ first_piece (left_of pieces.now next offset) }
    ensures bound { offset + length result.now < 2 ^ 64 }
    ensures within { offset + length result.now ≤ length (piece_at pieces.now next) }
{
    let Some(piece) = pieces.get(next) else {
        return &[];
    };
    let (_, left) = piece.as_slice().split_at(offset);
    left
}

// Copies as many bytes as there are and there is room for.
fn copy_front(from: &[u8], into: &mut [u8]) -> usize
    ensures count { result ≡ min (length from.now) (length into.old) }
    ensures copied { take result into.new ≡ take result from.now }
{
    let count = from.len().min(into.len());
    let (front, _) = into.split_at_mut(count);
    front.copy_from_slice(&from[..count]);
    count
}
