//! A file in memory that does little at a time.
ghost use Rattle.std.specs.Prelude.{◌≤◌, length, IfOk, None};

use cd_disk::{RawFile, Warns};
use cd_text::rest_from;
use std::alloc::Global;
use std::io;
use std::io::ErrorKind;

/// A file in memory. Each second call is interrupted, and the others move up to three bytes. It has room for so many bytes, and the
/// sync of this number fails, counted from 0.
#[derive(Drop)]
pub struct SlowFile {
    bytes: Vec<u8>,
    room: usize,
    failing: u32,
    calls: u32,
    syncs: u32,
}

impl SlowFile {
    /// An empty file.
    pub fn new(alloc: Global, room: usize, failing: u32) -> SlowFile {
        SlowFile {
            bytes: Vec::new(alloc),
            room,
            failing,
            calls: 0,
            syncs: 0,
        }
    }

    /// Whether it has these bytes.
    pub fn has(&self, bytes: &[u8]) -> bool {
        self.bytes.as_slice() == bytes
    }

    // How many of so many bytes a call moves.
    fn call(&mut self, asked: usize) -> io::Result<usize>
        ensures { IfOk result (λ count. count ≤ asked) }
    {
        self.calls = self.calls.saturating_add(1);
        if self.calls % 2 == 1 {
            return Err(io::Error::from(ErrorKind::Interrupted));
        }
        Ok(asked.min(3))
    }

    // Writes what is to begin at a place.
    fn put(&mut self, at: usize, piece: &[u8]) -> io::Result<()> {
        let end = at.saturating_add(piece.len());
        if end > self.bytes.len() {
            self.bytes.resize(end, 0)?;
        }
        let len = self.bytes.len();
        let (_, rest) = self.bytes.as_mut_slice().split_at_mut(at.min(len));
        let count = piece.len().min(rest.len());
        rest[..count].copy_from_slice(&piece[..count]);
        Ok(())
    }
}

impl Warns for SlowFile {
    /// It has room so far, whatever is to come.
    fn warning(&self) -> Option<io::Error> {
        if self.room == 0 {
            Some(io::Error::from(ErrorKind::StorageFull))
        } else {
            None
        }
    }
}

impl RawFile for SlowFile {
    ghost bytes = { λ _. None };

    fn read_at(&mut self, at: u64, into: &mut [u8]) -> io::Result<usize> {
        let rest = rest_from(self.bytes.as_slice(), at as usize).len();
        let count = self.call(into.len().min(rest))?;
        let rest = rest_from(self.bytes.as_slice(), at as usize);
        let count = count.min(rest.len());
        into[..count].copy_from_slice(&rest[..count]);
        Ok(count)
    }

    #[tactic(auto, using(cd_disk::proofs::Writing::writes_untold))]
    fn write_at(&mut self, at: u64, piece: &[u8]) -> io::Result<usize> {
        let room = self.room.saturating_sub(at as usize);
        if room == 0 {
            return Err(io::Error::from(ErrorKind::StorageFull));
        }
        let count = self.call(piece.len().min(room))?;
        self.put(at as usize, &piece[..count])?;
        Ok(count)
    }

    fn sync(&mut self) -> io::Result<()> {
        let number = self.syncs;
        self.syncs = number.saturating_add(1);
        if number == self.failing {
            Err(io::Error::from(ErrorKind::TimedOut))
        } else {
            Ok(())
        }
    }
}
