//! Saving the configuration in a file, so that a crash at any moment leaves the last one that was saved, or one that was being
//! saved.
//!
//! The file has two slots. A save takes the one that isn't held: it closes that slot's gate, writes the number, the length and
//! the text, opens the gate, and syncs after each of these. So what a crash tears never counts, and what was held stays until
//! the new record counts.
//!
//! ```text
//! 0         1        9        13                16,777,216
//! | gate    | number | length | text ..         | gate    | number | length | text ..
//! |   1     |  8 bytes, big-endian; 4 bytes     |
//! ```
//!
//! A slot is open where its gate is 1 and isn't the last byte of the file; bytes past the end count as 0. specs/Image.antt says
//! what is recovered from the bytes of a file (`recovered`): the record of the open slot with the greater number. specs/Disk.antt
//! says what a disk does and what a crash may leave of it, and `MemoryDisk` is one that tells both.
//!
//! `Saver::open` gives what is recovered from a file, or says that the file is damaged (specs/Opening.antt). `Saver::save` says
//! what each crash in it leaves (`IsSave` of specs/Saves.antt), and `a_crash_leaves_what_was_saved` what follows for any saves,
//! one after another.
//!
//! `SavingLane` is a lane that saves what it keeps, by a saver that it shares with the other lanes of a run. What a call did
//! to a value under a lock is said by no contract, so that its `keep` makes the save is left to the rows that show it.
//!
//! That a real file is such a disk is a promise of the system, and no contract says it. The text that is saved may be any bytes:
//! that it is a configuration's is left to the caller.
#![tactic(auto)]

mod choosing;
mod disk;
mod disk_call;
mod found;
mod gates;
mod head;
mod laws;
mod limits;
mod looking;
mod memory_disk;
mod opening;
mod reading;
mod rest;
mod save_fault;
mod saver;
mod saving;
mod saving_lane;
mod shared_saver;
mod slot;
mod slots;
mod wrapping;
mod writing;

pub use disk::Disk;
pub use disk_call::DiskCall;
pub use laws::a_crash_leaves_what_was_saved;
pub use limits::{HEAD_BYTES, MAX_NUMBER, SECOND_START, limits_in_numbers};
pub use memory_disk::MemoryDisk;
pub use save_fault::SaveFault;
pub use saver::Saver;
pub use saving_lane::SavingLane;
pub use shared_saver::{SavingRun, SharedSaver};
pub use slot::{Gate, Slot};
pub use slots::Slots;
pub use wrapping::{unwrap_lanes, wrap_lanes};
