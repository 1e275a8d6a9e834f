ghost use Rattle.std.specs.Prelude.{◌≡◌, ◌≤◌, ◌<◌, ◌+◌, ◌^◌, ◌⊎◌, true, List, ℕ, length, Ok, Err, IfOk, IfSome};
ghost use Rattle.cd_outside.specs.Counts.{Rises};
ghost use Rattle.cd_tree.specs.Endings.{last_byte};
ghost use Rattle.cd_tree.specs.Reading.{tree_of};
ghost use Rattle.cd_tree.specs.Tree.{IsSound};
ghost use Rattle.cd_autosave.specs.declared.save_fault.SaveFault.TheVariants as fault;
ghost use Rattle.cd_autosave.specs.declared.slot.Slot.TheVariants as slots;
ghost use Rattle.cd_autosave.specs.Places.{start_of};
ghost use Rattle.cd_autosave.specs.Heads.{IsHead};
ghost use Rattle.cd_autosave.specs.Image.{bytes_at, saved_at};
ghost use Rattle.cd_autosave.specs.Disk.{IsUnchanged, IsDurable};
ghost use Rattle.cd_autosave.specs.Opening.{IsDamaged, IsDamagedAt, IsFound, IsNoTree, IsRecord, IsInvalid};

use crate::found::{Found, FoundSlots, Record};
use crate::head::{Head, read_head};
use crate::limits::{HEAD_BYTES, MAX_NUMBER};
use crate::reading::read_whole;
use crate::{Disk, SaveFault, Slot};
use cd_outside::{Given, MAX_KEPT_BYTES};
use cd_text::NoMemory;
use cd_tree::{Tree, TreeFault, no_tree_ends_in_zero, read};
use std::alloc::Global;

// The tree of a text, of which the file had so many bytes. Those that it had not are 0, so a text that ends in one is no tree.
fn tree_in(alloc: Global, count: usize, text: &[u8]) -> Result<Tree, SaveFault>
    ensures tree { IfOk result (λ tree. (0 < count) × (length text.now ≤ count) × (tree_of text.now ≡ Ok tree)) }
    ensures sound { IfOk result IsSound }
    ensures damaged { result ≡ Err fault.Damaged → (count < length text.now → last_byte 0 text.now ≡ 0) → IsNoTree text.now }
    ensures cause { result ≡ Err fault.DiskFault → ⊥ }
{
    no_tree_ends_in_zero(text);
    if text.is_empty() {
        return Err(SaveFault::Damaged);
    }
    if count < text.len() {
        return Err(SaveFault::Damaged);
    }
    match read(alloc, text) {
        Ok(tree) => Ok(tree),
        Err(TreeFault::NoMemory) => Err(SaveFault::NoMemory),
        Err(_) => Err(SaveFault::Damaged),
    }
}

// Reads the text that begins at a place, as long as the room.
fn read_tree<D: Disk>(
    alloc: Global,
    disk: &mut D,
    at: u64,
    room: &mut [u8],
) -> Result<Tree, SaveFault>
    requires { at + length room.old < 2 ^ 63 }
    ensures unchanged { IsUnchanged D.seen D.left_now D.clock D.left_at disk.old disk.new }
    ensures long { length room.new ≡ length room.old }
    ensures sound { IfOk result IsSound }
    ensures tree { IfOk result (λ tree. IfSome (D.seen disk.old) (λ image. (at + length room.old ≤ length image) × (tree_of (bytes_at image at (length room.old)) ≡ Ok tree))) }
    ensures damaged { result ≡ Err fault.Damaged → IfSome (D.seen disk.old) (λ image. IsNoTree (bytes_at image at (length room.old))) }
    ensures cause { Rises (D.faults disk.old) (D.faults disk.new) (result ≡ Err fault.DiskFault) }
{
    match read_whole(disk, at, room) {
        None => Err(SaveFault::DiskFault),
        Some(count) => tree_in(alloc, count, room),
    }
}

// So many bytes.
fn bytes_for(alloc: Global, count: usize) -> Result<Vec<u8>, NoMemory>
    ensures { IfOk result (λ room. length room.items ≡ count) }
{
    let mut room = Vec::with_capacity(alloc, count)?;
    room.resize(count, 0)?;
    Ok(room)
}

// Reads the text of an open slot, as long as the room.
fn read_text<D: Disk>(
    alloc: Global,
    disk: &mut D,
    slot: Slot,
    head: Head,
    room: &mut [u8],
) -> Result<Record, SaveFault>
    requires long { length room.old ≡ head.size }
    requires short { head.size ≤ MAX_KEPT_BYTES }
    requires small { head.number ≤ MAX_NUMBER }
    requires head { IfSome (D.seen disk.old) (λ image. IsHead (start_of slot) image head) }
    requires opens { head.open_slot ≡ true }
    ensures unchanged { IsUnchanged D.seen D.left_now D.clock D.left_at disk.old disk.new }
    ensures record { IfOk result (λ found. IfSome (D.seen disk.old) (λ image. IsRecord slot image (saved_at image (start_of slot)) found)) }
    ensures damaged { result ≡ Err fault.Damaged → IfSome (D.seen disk.old) (λ image. IsInvalid (saved_at image (start_of slot))) }
    ensures cause { Rises (D.faults disk.old) (D.faults disk.new) (result ≡ Err fault.DiskFault) }
{
    let at = slot.start() + HEAD_BYTES as u64;
    match read_tree(alloc, disk, at, room) {
        Err(fault) => Err(fault),
        Ok(tree) => Ok(Record {
            number: head.number,
            tree,
        }),
    }
}

// Reads what an open slot holds after its head.
fn read_record<D: Disk>(
    alloc: Global,
    disk: &mut D,
    slot: Slot,
    head: Head,
) -> Result<Record, SaveFault>
    requires head { IfSome (D.seen disk.old) (λ image. IsHead (start_of slot) image head) }
    requires opens { head.open_slot ≡ true }
    ensures unchanged { IsUnchanged D.seen D.left_now D.clock D.left_at disk.old disk.new }
    ensures record { IfOk result (λ found. IfSome (D.seen disk.old) (λ image. IsRecord slot image (saved_at image (start_of slot)) found)) }
    ensures damaged { result ≡ Err fault.Damaged → IfSome (D.seen disk.old) (λ image. IsInvalid (saved_at image (start_of slot))) }
    ensures cause { Rises (D.faults disk.old) (D.faults disk.new) (result ≡ Err fault.DiskFault) }
{
    if head.number > MAX_NUMBER {
        return Err(SaveFault::Damaged);
    }
    if head.size as usize > MAX_KEPT_BYTES {
        return Err(SaveFault::Damaged);
    }
    match bytes_for(alloc, head.size as usize) {
        Err(_) => Err(SaveFault::NoMemory),
        Ok(mut room) => read_text(alloc, disk, slot, head, room.as_mut_slice()),
    }
}

// Reads what a slot holds.
fn look_at_slot<D: Disk>(alloc: Global, disk: &mut D, slot: Slot) -> Result<Found, SaveFault>
    ensures unchanged { IsUnchanged D.seen D.left_now D.clock D.left_at disk.old disk.new }
    ensures found { IfOk result (λ found. IfSome (D.seen disk.old) (λ image. IsFound slot image found)) }
    ensures damaged { result ≡ Err fault.Damaged → IfSome (D.seen disk.old) (λ image. IsDamagedAt slot image) }
    ensures cause { Rises (D.faults disk.old) (D.faults disk.new) (result ≡ Err fault.DiskFault) }
{
    match read_head(disk, slot.start()) {
        None => Err(SaveFault::DiskFault),
        Some(head) => {
            let gate = head.gate;
            if head.open_slot {
                match read_record(alloc, disk, slot, head) {
                    Err(fault) => Err(fault),
                    Ok(record) => Ok(Found {
                        gate,
                        held: Some(record),
                    }),
                }
            } else {
                Ok(Found { gate, held: None })
            }
        }
    }
}

// Syncs, and reads what both slots hold.
pub fn look_at_both<D: Disk>(alloc: Global, disk: &mut D) -> Result<FoundSlots, SaveFault>
    ensures unchanged { IsUnchanged D.seen D.left_now D.clock D.left_at disk.old disk.new }
    ensures durable { IfOk result (λ both. IsDurable (D.seen disk.new) (D.left_now disk.new)) }
    ensures first { IfOk result (λ both. IfSome (D.seen disk.old) (λ image. IsFound slots.First image both.first)) }
    ensures second { IfOk result (λ both. IfSome (D.seen disk.old) (λ image. IsFound slots.Second image both.second)) }
    ensures damaged { result ≡ Err fault.Damaged → IfSome (D.seen disk.old) IsDamaged }
    ensures cause { Rises (D.faults disk.old) (D.faults disk.new) (result ≡ Err fault.DiskFault) }
{
    match disk.sync() {
        Given::Failed => Err(SaveFault::DiskFault),
        Given::All => look_at_all(alloc, disk),
    }
}

// Reads what both slots hold.
fn look_at_all<D: Disk>(alloc: Global, disk: &mut D) -> Result<FoundSlots, SaveFault>
    ensures unchanged { IsUnchanged D.seen D.left_now D.clock D.left_at disk.old disk.new }
    ensures first { IfOk result (λ both. IfSome (D.seen disk.old) (λ image. IsFound slots.First image both.first)) }
    ensures second { IfOk result (λ both. IfSome (D.seen disk.old) (λ image. IsFound slots.Second image both.second)) }
    ensures damaged { result ≡ Err fault.Damaged → IfSome (D.seen disk.old) IsDamaged }
    ensures cause { Rises (D.faults disk.old) (D.faults disk.new) (result ≡ Err fault.DiskFault) }
{
    match look_at_slot(alloc, disk, Slot::First) {
        Err(fault) => Err(fault),
        Ok(first) => look_at_other(alloc, disk, first),
    }
}

// Reads what the second slot holds, beside what the first does.
fn look_at_other<D: Disk>(
    alloc: Global,
    disk: &mut D,
    first: Found,
) -> Result<FoundSlots, SaveFault>
    ensures unchanged { IsUnchanged D.seen D.left_now D.clock D.left_at disk.old disk.new }
    ensures first { IfOk result (λ both. both.first ≡ first) }
    ensures second { IfOk result (λ both. IfSome (D.seen disk.old) (λ image. IsFound slots.Second image both.second)) }
    ensures damaged { result ≡ Err fault.Damaged → IfSome (D.seen disk.old) (λ image. IsDamagedAt slots.Second image) }
    ensures cause { Rises (D.faults disk.old) (D.faults disk.new) (result ≡ Err fault.DiskFault) }
{
    match look_at_slot(alloc, disk, Slot::Second) {
        Err(fault) => Err(fault),
        Ok(second) => Ok(FoundSlots { first, second }),
    }
}
