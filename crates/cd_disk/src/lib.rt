//! The file in which configurations are saved, as a disk of `cd_autosave`.
//!
//! `AutosaveFile` is that file: it is made by its first write, it is locked while it is open, and a file that is not one of saved
//! configurations (gates.rt) or not its owner's alone (attributes.rt) is refused and stays as it is. As it is looked for, its folder
//! is tried (trial.rt), so that it can be said at the start that nothing will be saved. `FileDisk` makes a `Disk` of it, or of another `RawFile`: a read or a write that
//! did less than was asked is carried on, each failure is counted, and after a sync that failed every call fails. `ReportingDisk` is
//! a disk that leaves a line for standard error at each call that fails, and where it was seen that saves will fail.
//!
//! A file tells nothing of what it holds, so a `FileDisk` tells nothing either. Proved is that it answers `Failed` only where its
//! count of faults rose, that a read never answers more bytes than there was room for, that a file that tells its bytes has all of a
//! piece where the answer is `All`, and that after a sync that failed each answer is `Failed`; also which file is refused, by what the
//! system says of it (`fault_of`) and by its length and two of its bytes (`may_be_saved`). What files do is tested
//! (`cd_stdio_cases`, tests/loopback).
#![tactic(auto)]

mod attributes;
mod autosave_file;
mod file_disk;
mod gates;
mod own_user;
mod raw_file;
mod reporting_disk;
mod trial;

pub use attributes::{Attributes, FileFault, Kind, OWNER_BITS, fault_of};
pub use autosave_file::{AUTOSAVE_FILE, AutosaveFile};
pub use file_disk::FileDisk;
pub use gates::{MAX_FILE_BYTES, limits_are, may_be_saved};
pub use raw_file::RawFile;
pub use reporting_disk::ReportingDisk;
pub use trial::Warns;
