ghost use Rattle.std.specs.Prelude.{◌≡◌, ◌<◌, ◌≤◌, [], length, take, IfOk, OnErr, IfSome, IfNone};
ghost use Rattle.std.specs.Io.KnownBytes.{Appends, Consumes};
ghost use Rattle.cd_outside.specs.declared.given.Given.TheVariants.{All};
ghost use Rattle.cd_outside.specs.Taken.{IsTakenWithin};
ghost use Rattle.cd_stdio.specs.Moving.{Takes, GivesFront};

use cd_outside::{Given, Taken, given_of};
use cd_text::rest_from;
use std::io;
use std::io::{ErrorKind, Read, Write};

/// Reads the next bytes. A read that a signal interrupts is tried again. Of a reader that tells its bytes they are the next ones,
/// the end is answered only where none is left, and nothing is lost by a failure.
pub fn take<R: Read>(reader: &mut R, into: &mut [u8]) -> Taken
    requires { 0 < length into.old }
    ensures bound { IsTakenWithin result (length into.new) }
    ensures bytes { Takes result (R.remaining reader.old) (R.remaining reader.new) into.new }
{
    match take_or_fail(reader, into) {
        Ok(taken) => taken,
        Err(_) => Taken::Failed,
    }
}

/// The same, with the error of the system in place of `Failed`.
#[tactic(auto, using(crate::proofs::TakingNothing::kept_then, crate::proofs::TakingNothing::taken_then, crate::proofs::TakingNothing::nothing_yet))]
pub fn take_or_fail<R: Read>(reader: &mut R, into: &mut [u8]) -> io::Result<Taken>
    requires { 0 < length into.old }
    ensures bound { IfOk result (λ taken. IsTakenWithin taken (length into.new)) }
    ensures bytes { IfOk result (λ taken. Takes taken (R.remaining reader.old) (R.remaining reader.new) into.new) }
    ensures kept { OnErr result (Consumes (R.remaining reader.old) (R.remaining reader.new) []) }
{
    for _ in 0..u64::MAX {
        match reader.read(into) {
            Ok(0) => return Ok(Taken::End),
            Ok(count) => return Ok(Taken::Bytes(count)),
            Err(error) if error.kind() == ErrorKind::Interrupted => {}
            Err(error) => return Err(error),
        }
    }
    Err(io::Error::from(ErrorKind::Interrupted))
}

/// Writes the whole piece and flushes. Of a writer that tells its bytes it is given only where these are then its last ones.
#[tactic(auto, using(crate::proofs::GivenParts::whole_given))]
pub fn give<W: Write>(writer: &mut W, piece: &[u8]) -> Given
    ensures { result ≡ All → Appends (W.contents writer.old) (W.contents writer.new) piece.now }
{
    given_of(put(writer, piece), piece)
}

/// The same, with the number of bytes that were given, from the front of the piece: all of them, those that were written before a
/// write failed, or none where the flush failed, since how many it lost is not known.
#[tactic(auto, using(crate::proofs::GivenParts::front_given, crate::proofs::GivenParts::front_kept))]
pub fn put<W: Write>(writer: &mut W, piece: &[u8]) -> usize
    ensures bound { result ≤ length piece.now }
    ensures bytes { GivesFront result piece.now (W.contents writer.old) (W.contents writer.new) }
{
    let count = write_front(writer, piece);
    if count < piece.len() {
        return count;
    }
    match writer.flush() {
        Ok(()) => count,
        Err(_) => 0,
    }
}

// Writes the piece, and says how many of its bytes were written, from its front: all of them, unless a write failed.
#[tactic(auto, using(crate::proofs::GivenParts::given_still, crate::proofs::GivenParts::nothing_given))]
fn write_front<W: Write>(writer: &mut W, piece: &[u8]) -> usize
    ensures bound { result ≤ length piece.now }
    ensures bytes { Appends (W.contents writer.old) (W.contents writer.new) (take result piece.now) }
{
    let mut count = 0;
    for _ in 0..u64::MAX {
        let left = rest_from(piece, count);
        if left.is_empty() {
            return count;
        }
        match write_once(writer, left) {
            Some(more) => count += more,
            None => return count,
        }
    }
    count
}

// Writes once, and says how many bytes: none after a signal.
#[tactic(auto, using(crate::proofs::GivenParts::kept_given))]
fn write_once<W: Write>(writer: &mut W, piece: &[u8]) -> Option<usize>
    ensures bound { IfSome result (λ count. count ≤ length piece.now) }
    ensures bytes { IfSome result (λ count. Appends (W.contents writer.old) (W.contents writer.new) (take count piece.now)) }
    ensures none { IfNone result (Appends (W.contents writer.old) (W.contents writer.new) []) }
{
    match writer.write(piece) {
        Ok(0) => None,
        Ok(count) => Some(count),
        Err(error) if error.kind() == ErrorKind::Interrupted => Some(0),
        Err(_) => None,
    }
}
