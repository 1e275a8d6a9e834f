ghost use Rattle.std.specs.Prelude.{◌≡◌, ◌<◌, ◌≤◌, ◌+◌, ◌-◌, ◌^◌, ◌++◌, ◌∷◌, [], List as Values, ℕ, length, take, Option, Some, IfSome, None, IfOk, OnOk, OnErr, min};
ghost use Rattle.cd_outside.specs.declared.taken.Taken.TheVariants as taken;
ghost use Rattle.cd_outside.specs.Taken.{IsTakenWithin};
ghost use Rattle.cd_autosave.specs.declared.disk_call.DiskCall.TheVariants.{Wrote};
ghost use Rattle.cd_autosave.specs.Disk.{ReadsAt};
ghost use Rattle.cd_autosave.specs.Memory.{now_or, put, after_all, begun, IsImage, LeftAt};
ghost use Rattle.cd_autosave.specs.MemoryLaws.{told_law, present_law};

use crate::{Disk, DiskCall};
use cd_outside::{Faults, Given, Taken};
use cd_text::{List, NoMemory, Octets};
use std::alloc::Global;

/// A disk in memory. It keeps the calls that it has done, so it tells each image that a crash may leave.
///
/// A call that finds no memory fails too, and is counted. A failed call changes nothing.
#[derive(Debug, Drop)]
pub struct MemoryDisk {
    alloc: Global,
    /// The bytes that it began with.
    pub first: Octets,
    /// The writes and syncs so far.
    pub calls: List<DiskCall>,
    /// The bytes that reads give now, once a write was done.
    pub changed: Option<Octets>,
    /// Which calls fail. All three kinds are counted together.
    pub faults: Faults,
    pub ghost replays: { now_or changed first ≡ (after_all (begun first) calls).seen },
}

impl MemoryDisk {
    /// A disk with these bytes, whose calls fail at these numbers, counted from 0.
    pub fn new(alloc: Global, image: Octets, failing: List<u64>) -> MemoryDisk
        ensures image { result.first ≡ image }
        ensures none { (result.calls ≡ []) × (result.changed ≡ None) }
        ensures faults { result.faults ≡ record { failing = failing; calls = 0; count = 0 } }
    {
        MemoryDisk {
            alloc,
            first: image,
            calls: List::new(alloc),
            changed: None,
            faults: Faults::new(failing),
        }
    }

    /// The bytes that reads give now.
    pub fn image(&self) -> &Octets
        ensures { result.now ≡ now_or self.now.changed self.now.first }
    {
        match &self.changed {
            Some(image) => image,
            None => &self.first,
        }
    }

    /// How often it has failed.
    pub fn faults(&self) -> u64
        ensures { result ≡ self.now.faults.count }
    {
        self.faults.count
    }

    // Does a write. `Err` changes nothing.
    fn write(&mut self, at: u64, piece: &[u8]) -> Result<(), NoMemory>
        requires { at + length piece.now < 2 ^ 63 }
        ensures first { self.new.first ≡ self.old.first }
        ensures faults { self.new.faults ≡ self.old.faults }
        ensures ok { OnOk result ((self.new.calls ≡ self.old.calls ++ Wrote at piece.now ∷ []) × (self.new.changed ≡ Some (put at piece.now (now_or self.old.changed self.old.first)))) }
        ensures err { OnErr result ((self.new.calls ≡ self.old.calls) × (self.new.changed ≡ self.old.changed)) }
    {
        let made = with_piece(self.alloc, self.image().as_slice(), at as usize, piece)?;
        let kept = Octets::from_slice(self.alloc, piece)?;
        self.calls.push(DiskCall::Wrote(at, kept))?;
        self.changed = Some(made);
        Ok(())
    }
}

// The bytes with the piece at a place, and zeros between the old end and it.
fn with_piece(alloc: Global, bytes: &[u8], at: usize, piece: &[u8]) -> Result<Octets, NoMemory>
    requires { at + length piece.now < 2 ^ 63 }
    ensures { IfOk result (λ made. made ≡ put at piece.now bytes.now) }
{
    let mut made = Vec::from_slice(alloc, &bytes[..at.min(bytes.len())])?;
    made.resize(at, 0)?;
    made.extend_from_slice(piece)?;
    let end = at + piece.len();
    made.extend_from_slice(&bytes[end.min(bytes.len())..])?;
    Ok(Octets::from_vec(made))
}

// Copies what is at a place, as far as there is room.
fn copy_at(bytes: &[u8], at: u64, into: &mut [u8]) -> Taken
    requires { 0 < length into.old }
    ensures bound { IsTakenWithin result (length into.new) }
    ensures reads { ReadsAt result at into.new bytes.now }
    ensures done { result ≡ taken.Failed → ⊥ }
{
    if at >= bytes.len() as u64 {
        return Taken::End;
    }
    let rest = &bytes[at as usize..];
    let count = rest.len().min(into.len());
    let (front, _) = into.split_at_mut(count);
    front.copy_from_slice(&rest[..count]);
    Taken::Bytes(count)
}

impl Disk for MemoryDisk {
    ghost faults = { λ disk. disk.faults.count };

    ghost seen = { λ disk. Some (now_or disk.changed disk.first) };

    ghost left_now = { λ disk c. IsImage (after_all (begun disk.first) disk.calls) c };

    ghost clock = { λ disk. length disk.calls };

    ghost left_at = { λ disk n c. LeftAt disk.first disk.calls n c };

    ghost tells = { λ disk c left. told_law (now_or disk.changed disk.first) };

    ghost present = { λ disk. present_law disk.first disk.calls };

    fn read_at(&mut self, at: u64, into: &mut [u8]) -> Taken {
        if self.faults.fails() {
            self.faults.rise();
            return Taken::Failed;
        }
        copy_at(self.image().as_slice(), at, into)
    }

    fn write_at(&mut self, at: u64, piece: &[u8]) -> Given {
        if self.faults.fails() {
            self.faults.rise();
            return Given::Failed;
        }
        match self.write(at, piece) {
            Ok(()) => Given::All,
            Err(_) => {
                self.faults.rise();
                Given::Failed
            }
        }
    }

    fn sync(&mut self) -> Given {
        if self.faults.fails() {
            self.faults.rise();
            return Given::Failed;
        }
        match self.calls.push(DiskCall::Synced) {
            Ok(()) => Given::All,
            Err(_) => {
                self.faults.rise();
                Given::Failed
            }
        }
    }
}
