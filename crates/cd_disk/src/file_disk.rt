ghost use Rattle.std.specs.Prelude.{◌≡◌, ◌⊎◌, ◌<◌, ◌≤◌, ◌+◌, ◌^◌, true, false, List, ℕ, length, take, IsOk, IfOk, IfSome};
ghost use Rattle.cd_outside.specs.declared.taken.Taken.TheVariants as taken;
ghost use Rattle.cd_outside.specs.declared.given.Given.TheVariants as given;
ghost use Rattle.cd_outside.specs.Counts.{Rises};
ghost use Rattle.cd_outside.specs.Taken.{IsTakenWithin};
ghost use Rattle.cd_autosave.specs.Disk.{PartWritten, Written, ReadsAt, Steps, MadeOf, IsAmong, IsDurable, IsUnchanged, Throughout};
ghost use Rattle.cd_disk.specs.RawFile.{Writes};
ghost use Rattle.cd_disk.specs.Untold.{untold, no_image, no_image_at};

use crate::{RawFile, Warns};
use cd_autosave::Disk;
use cd_outside::{Given, Taken};
use cd_stdio::Explains;
use cd_text::rest_from;
use std::io;
use std::io::ErrorKind;

/// A disk over a file. It tells nothing of what the file holds.
#[derive(Drop)]
pub struct FileDisk<F> {
    pub file: F,
    /// How often it has failed. It stays at 2^64 - 1.
    pub faults: u64,
    /// Whether a sync has failed. The system may then have lost what was written before, and a later sync would not say so. So each
    /// call fails until the file is opened anew.
    pub lost: bool,
    cause: Option<io::Error>,
}

impl<F: RawFile> FileDisk<F> {
    /// A disk over this file, which has not failed yet.
    pub fn new(file: F) -> FileDisk<F>
        ensures file { result.file ≡ file }
        ensures faults { result.faults ≡ 0 }
        ensures lost { result.lost ≡ false }
    {
        FileDisk {
            file,
            faults: 0,
            lost: false,
            cause: None,
        }
    }

    // Counts a failure, and keeps its cause.
    fn fail(&mut self, error: io::Error)
        ensures file { self.new.file ≡ self.old.file }
        ensures lost { self.new.lost ≡ self.old.lost }
        ensures cause { Rises self.old.faults self.new.faults (true ≡ true) }
    {
        self.faults = self.faults.saturating_add(1);
        self.cause = Some(error);
    }
}

impl<F> Explains for FileDisk<F> {
    fn cause(&self) -> Option<io::Error> {
        self.cause
    }
}

impl<F: Warns> Warns for FileDisk<F> {
    fn warning(&self) -> Option<io::Error> {
        self.file.warning()
    }
}

// Why a call fails after a sync that failed.
fn lost() -> io::Error {
    io::Error::new(
        ErrorKind::Other,
        "a sync has failed, and nothing is saved until a restart",
    )
}

// Reads from a place on, again where a signal interrupts.
fn read_on<F: RawFile>(file: &mut F, at: u64, into: &mut [u8]) -> io::Result<Taken>
    requires { 0 < length into.old }
    ensures reads { IfOk result (λ read. IfSome (F.bytes file.old) (λ image. ReadsAt read at into.new image)) }
    ensures kept { F.bytes file.new ≡ F.bytes file.old }
    ensures bound { IfOk result (λ taken. IsTakenWithin taken (length into.new)) }
    ensures done { IfOk result (λ read. read ≡ taken.Failed → ⊥) }
{
    for _ in 0..u64::MAX {
        match file.read_at(at, into) {
            Ok(0) => return Ok(Taken::End),
            Ok(count) => return Ok(Taken::Bytes(count)),
            Err(error) if error.kind() == ErrorKind::Interrupted => {}
            Err(error) => return Err(error),
        }
    }
    Err(io::Error::from(ErrorKind::Interrupted))
}

// Writes once at a place, and says how many bytes: none after a signal.
fn write_once<F: RawFile>(file: &mut F, at: u64, piece: &[u8]) -> io::Result<usize>
    ensures bound { IfOk result (λ count. count ≤ length piece.now) }
    ensures bytes { IfOk result (λ count. Writes at (take count piece.now) (F.bytes file.old) (F.bytes file.new)) }
{
    match file.write_at(at, piece) {
        Ok(0) => Err(io::Error::from(ErrorKind::WriteZero)),
        Ok(count) => Ok(count),
        Err(error) if error.kind() == ErrorKind::Interrupted => Ok(0),
        Err(error) => Err(error),
    }
}

// Writes the whole piece at a place, in as many writes as the system makes of it.
fn write_whole<F: RawFile>(file: &mut F, at: u64, piece: &[u8]) -> io::Result<()>
    requires { at + length piece.now < 2 ^ 63 }
    ensures { IsOk result → Writes at piece.now (F.bytes file.old) (F.bytes file.new) }
{
    let mut rest = piece;
    let mut next = at;
    for _ in 0..u64::MAX {
        if rest.is_empty() {
            return Ok(());
        }
        match write_once(file, next, rest) {
            Ok(count) => {
                rest = rest_from(rest, count);
                next = next.saturating_add(count as u64);
            }
            Err(error) => return Err(error),
        }
    }
    Err(io::Error::from(ErrorKind::Interrupted))
}

impl<F: RawFile> Disk for FileDisk<F> {
    ghost faults = { λ disk. disk.faults };

    ghost seen = { λ _. untold };

    ghost left_now = { λ _. no_image };

    ghost clock = { λ _. 0 };

    ghost left_at = { λ _. no_image_at };

    ghost tells = { λ _ _ left. absurd left };

    ghost present = { λ _ _. (λ left. left, λ left. left) };

    #[tactic(auto, using(crate::proofs::Telling::nothing_changes))]
    fn read_at(&mut self, at: u64, into: &mut [u8]) -> Taken
        requires { 0 < length into.old }
        ensures bound { IsTakenWithin result (length into.new) }
        ensures bytes { IfSome untold (λ image. ReadsAt result at into.new image) }
        ensures unchanged { IsUnchanged (λ _. untold) (λ _. no_image) (λ _. 0) (λ _. no_image_at) self.old self.new }
        ensures cause { Rises self.old.faults self.new.faults (result ≡ taken.Failed) }

        // of a file that tells its bytes they are those of the place
        ensures file { F.bytes self.new.file ≡ F.bytes self.old.file }
        ensures reads { IfSome (F.bytes self.old.file) (λ image. ReadsAt result at into.new image) }

        // nothing is read after a sync that failed
        ensures lost { self.old.lost ≡ true → result ≡ taken.Failed }
        ensures kept { self.new.lost ≡ self.old.lost }
    {
        if self.lost {
            self.fail(lost());
            return Taken::Failed;
        }
        match read_on(&mut self.file, at, into) {
            Ok(taken) => taken,
            Err(error) => {
                self.fail(error);
                Taken::Failed
            }
        }
    }

    #[tactic(auto, using(crate::proofs::Telling::nothing_left))]
    fn write_at(&mut self, at: u64, piece: &[u8]) -> Given
        requires some { 0 < length piece.now }
        requires fits { at + length piece.now < 2 ^ 63 }
        ensures written { result ≡ given.All → Steps (Written at piece.now) untold untold }
        ensures torn { Steps (PartWritten at (length piece.now)) untold untold }
        ensures left { IsAmong no_image (MadeOf (PartWritten at (length piece.now)) no_image) }
        ensures meanwhile { Throughout (λ _. 0) (λ _. no_image_at) self.old self.new (λ image. no_image image ⊎ no_image image) }
        ensures cause { Rises self.old.faults self.new.faults (result ≡ given.Failed) }

        // a file that tells its bytes has all of the piece
        ensures whole { result ≡ given.All → Writes at piece.now (F.bytes self.old.file) (F.bytes self.new.file) }

        // nothing is written after a sync that failed
        ensures lost { self.old.lost ≡ true → (result ≡ given.Failed) × (self.new.file ≡ self.old.file) }
        ensures kept { self.new.lost ≡ self.old.lost }
    {
        if self.lost {
            self.fail(lost());
            return Given::Failed;
        }
        match write_whole(&mut self.file, at, piece) {
            Ok(()) => Given::All,
            Err(error) => {
                self.fail(error);
                Given::Failed
            }
        }
    }

    #[tactic(auto, using(crate::proofs::Telling::nothing_changes))]
    fn sync(&mut self) -> Given
        ensures durable { result ≡ given.All → IsDurable untold no_image }
        ensures unchanged { IsUnchanged (λ _. untold) (λ _. no_image) (λ _. 0) (λ _. no_image_at) self.old self.new }
        ensures cause { Rises self.old.faults self.new.faults (result ≡ given.Failed) }

        ensures file { F.bytes self.new.file ≡ F.bytes self.old.file }

        // where a sync fails each later call does
        ensures lost { self.old.lost ≡ true → result ≡ given.Failed }
        ensures failed { result ≡ given.Failed → self.new.lost ≡ true }
        ensures done { result ≡ given.All → self.new.lost ≡ false }
    {
        if self.lost {
            self.fail(lost());
            return Given::Failed;
        }
        match self.file.sync() {
            Ok(()) => Given::All,
            Err(error) => {
                self.lost = true;
                self.fail(error);
                Given::Failed
            }
        }
    }
}
