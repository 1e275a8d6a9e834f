ghost use Rattle.std.specs.Prelude.{◌≡◌, ◌⊎◌, ◌<◌, ◌+◌, ◌^◌, List, ℕ, length, Option, Some, IfSome};
ghost use Rattle.cd_outside.specs.declared.taken.Taken.TheVariants as taken;
ghost use Rattle.cd_outside.specs.declared.given.Given.TheVariants as given;
ghost use Rattle.cd_outside.specs.Counts.{Rises};
ghost use Rattle.cd_outside.specs.Taken.{IsTakenWithin};
ghost use Rattle.cd_autosave.specs.Disk.{PartWritten, Written, ReadsAt, Steps, MadeOf, IsAmong, IsDurable, IsPresent, IsUnchanged, Throughout};

use cd_outside::{Given, Taken};

/// A file whose bytes outlast a crash as far as they were synced.
///
/// After a crash each range that was written since the last sync may hold any bytes, and so may the part past the old end.
/// The file then ends anywhere from the old end to the new one. Other bytes stay. A disk may tell what reads give and which
/// images a crash leaves, as one in memory does; a real file tells nothing. Its moments are numbered, and what a crash leaves at
/// one of them never changes later. So a clause can speak of each moment of a call.
pub trait Disk {
    /// How many of its calls have failed.
    ghost faults: { Self → ℕ };

    /// The bytes that reads give, where it tells them.
    ghost seen: { Self → Option (List ℕ) };

    /// The images of which a crash leaves one, if it comes now.
    ghost left_now: { Self → List ℕ → Type 0 };

    /// Its clock: how many moments it has had so far. A call may take several, or none.
    ghost clock: { Self → ℕ };

    /// The images of which a crash leaves one, if it comes at the moment of that number, in a call or between two. Nothing is
    /// said of moments that the clock has not shown yet.
    ghost left_at: { Self → ℕ → List ℕ → Type 0 };

    /// Reads the bytes from a place on into the front of `into`, which may not be empty. It answers `End` where the place is
    /// the end of the file or past it.
    fn read_at(&mut self, at: u64, into: &mut [u8]) -> Taken
        requires { 0 < length into.old }
        ensures bound { IsTakenWithin result (length into.new) }
        ensures bytes { IfSome (seen self.old) (λ image. ReadsAt result at into.new image) }
        ensures unchanged { IsUnchanged seen left_now clock left_at self.old self.new }
        ensures cause { Rises (faults self.old) (faults self.new) (result ≡ taken.Failed) };

    /// Writes the piece, which may not be empty, at a place, over what is there and past the end. Where it fails, any bytes
    /// may be in its range.
    fn write_at(&mut self, at: u64, piece: &[u8]) -> Given
        requires some { 0 < length piece.now }
        requires fits { at + length piece.now < 2 ^ 63 }
        ensures written { result ≡ given.All → Steps (Written at piece.now) (seen self.old) (seen self.new) }
        ensures torn { Steps (PartWritten at (length piece.now)) (seen self.old) (seen self.new) }
        ensures left { IsAmong (left_now self.new) (MadeOf (PartWritten at (length piece.now)) (left_now self.old)) }
        ensures meanwhile { Throughout clock left_at self.old self.new (λ image. left_now self.old image ⊎ left_now self.new image) }
        ensures cause { Rises (faults self.old) (faults self.new) (result ≡ given.Failed) };

    /// Makes what was written outlast a crash. After `All` a crash leaves just what reads give.
    fn sync(&mut self) -> Given
        ensures durable { result ≡ given.All → IsDurable (seen self.new) (left_now self.new) }
        ensures unchanged { IsUnchanged seen left_now clock left_at self.old self.new }
        ensures cause { Rises (faults self.old) (faults self.new) (result ≡ given.Failed) };

    /// A disk that does not tell its bytes tells no images either.
    ghost tells: { (disk : Self) (image : List ℕ) → left_now disk image → (bytes : List ℕ) × (seen disk ≡ Some bytes) };

    /// What a crash leaves now is what it leaves at the moment that the clock shows.
    ghost present: { (disk : Self) → IsPresent left_now clock left_at disk };
}
