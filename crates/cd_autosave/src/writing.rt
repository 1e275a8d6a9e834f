ghost use Rattle.std.specs.Prelude.{◌≡◌, ◌<◌, ◌+◌, ◌^◌, length};
ghost use Rattle.cd_outside.specs.declared.given.Given.TheVariants as given;
ghost use Rattle.cd_outside.specs.Counts.{Rises};
ghost use Rattle.cd_autosave.specs.Disk.{PartWritten, Written, Steps, MadeOf, IsAmong, IsDurable, Throughout};

use crate::Disk;
use cd_outside::Given;

// Writes the piece and syncs. At each moment a crash leaves an image from before, into which the piece is written in part.
pub fn write_through<D: Disk>(disk: &mut D, at: u64, piece: &[u8]) -> Given
    requires some { 0 < length piece.now }
    requires fits { at + length piece.now < 2 ^ 63 }
    ensures written { result ≡ given.All → Steps (Written at piece.now) (D.seen disk.old) (D.seen disk.new) }
    ensures durable { result ≡ given.All → IsDurable (D.seen disk.new) (D.left_now disk.new) }
    ensures torn { Steps (PartWritten at (length piece.now)) (D.seen disk.old) (D.seen disk.new) }
    ensures left { IsAmong (D.left_now disk.new) (MadeOf (PartWritten at (length piece.now)) (D.left_now disk.old)) }
    ensures meanwhile { Throughout D.clock D.left_at disk.old disk.new (MadeOf (PartWritten at (length piece.now)) (D.left_now disk.old)) }
    ensures cause { Rises (D.faults disk.old) (D.faults disk.new) (result ≡ given.Failed) }
{
    match disk.write_at(at, piece) {
        Given::Failed => Given::Failed,
        Given::All => disk.sync(),
    }
}
