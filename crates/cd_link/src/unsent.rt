ghost use Rattle.std.specs.Prelude.{◌≡◌, ◌==◌, ◌≤◌, ◌++◌, [], length, drop, if◌then◌else◌, is_ok};

use cd_text::NoMemory;
use std::alloc::Global;
use std::marker::Model;

/// Bytes that were written on a connection and that its stream has not taken yet, in their order.
#[derive(Drop)]
pub struct Unsent {
    alloc: Global,
    bytes: Vec<u8>,
    // how many of them the stream has taken
    start: usize,
}

impl Model for Unsent {
    ghost use Rattle.std.specs.Prelude.{ℕ, List, ◌≤◌, length, drop};

    ghost Value = { List ℕ };

    ghost view = { λ u. drop u.start u.bytes.items };

    ghost invariant = { λ u. u.start ≤ length u.bytes.items };
}

impl Unsent {
    /// No bytes. It takes no memory.
    pub fn new(alloc: Global) -> Unsent
        ensures { result ≡ [] }
    {
        Unsent {
            alloc,
            bytes: Vec::new(alloc),
            start: 0,
        }
    }

    /// The bytes, to look at.
    pub fn as_slice(&self) -> &[u8]
        ensures { result.now ≡ self.now }
    {
        &self.bytes.as_slice()[self.start..]
    }

    /// How many bytes there are.
    pub fn len(&self) -> usize
        ensures { result ≡ length self.now }
    {
        self.as_slice().len()
    }

    /// Whether there are none.
    pub fn is_empty(&self) -> bool
        ensures { result ≡ (length self.now == 0) }
    {
        self.as_slice().is_empty()
    }

    /// Adds a piece. At `NoMemory` nothing is changed.
    pub fn push(&mut self, piece: &[u8]) -> Result<(), NoMemory>
        ensures { self.new ≡ (if is_ok result then self.old ++ piece.now else self.old) }
    {
        Ok(self.bytes.extend_from_slice(piece)?)
    }

    /// Takes so many bytes off the front. After the last one its memory is given back.
    pub fn advance(&mut self, count: usize)
        requires { count ≤ length self.old }
        ensures { self.new ≡ drop count self.old }
    {
        self.start += count;
        if self.start == self.bytes.len() {
            self.bytes = Vec::new(self.alloc);
            self.start = 0;
        }
    }
}
