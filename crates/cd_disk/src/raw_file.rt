ghost use Rattle.std.specs.Prelude.{◌≡◌, ◌<◌, List, ℕ, Option, None, length, take, IfOk, IfSome, OnErr};
ghost use Rattle.std.specs.Io.{ReadsAtMost, WritesAtMost};
ghost use Rattle.cd_disk.specs.RawFile.{Reads, Writes};

use std::io;

/// A file as the system has it: a read or a write may move fewer bytes than it is asked for, and one that fails moves none.
pub trait RawFile {
    /// The bytes of the file, where it tells them. One of the system does not.
    ghost bytes: { Self → Option (List ℕ) };

    /// Reads bytes from a place on into the front of `into`, which may not be empty, and says how many: none where the place is the
    /// end of the file or past it.
    fn read_at(&mut self, at: u64, into: &mut [u8]) -> io::Result<usize>
        requires { 0 < length into.old }
        ensures bound { ReadsAtMost result into.new }
        ensures bytes { IfOk result (λ n. IfSome (bytes self.old) (λ image. Reads n at into.new image)) }
        ensures kept { bytes self.new ≡ bytes self.old };

    /// Writes the front of a piece at a place, over what is there and past the end, and says how many bytes of it.
    fn write_at(&mut self, at: u64, piece: &[u8]) -> io::Result<usize>
        ensures bound { WritesAtMost result piece.now }
        ensures bytes { IfOk result (λ n. Writes at (take n piece.now) (bytes self.old) (bytes self.new)) }
        ensures kept { OnErr result (bytes self.new ≡ bytes self.old) };

    /// Makes what was written outlast a crash.
    fn sync(&mut self) -> io::Result<()>
        ensures { bytes self.new ≡ bytes self.old };
}
