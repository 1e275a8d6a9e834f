//! Disks over a file in memory and over real ones.
use crate::appending::has_text;
use crate::device::Busy;
use crate::slow_file::SlowFile;
use cd_autosave::{Disk, Saver};
use cd_disk::{AutosaveFile, FileDisk, ReportingDisk};
use cd_outside::{Given, MAX_KEPT_BYTES, Taken};
use cd_stdio::{Explains, Messages};
use std::alloc::Global;
use std::fs;
use std::fs::{File, Files, OpenOptions};
use std::io::{ErrorKind, Stdout, Write};
use std::os::unix::fs::OpenOptionsExt;
use std::sync::Wait;

// The sync that fails where none does.
const NEVER: u32 = u32::MAX;

/// Whether a piece is written whole in short writes, and a read gives what there is up to the end of the file.
pub fn a_disk_goes_on_after_a_short_write(alloc: Global) -> bool {
    let mut room = [0u8; 8];
    let mut disk = FileDisk::new(SlowFile::new(alloc, 64, NEVER));
    let written = disk.write_at(2, b"abcdefgh") == Given::All
        && disk.write_at(4, b"XY") == Given::All
        && disk.file.has(b"\0\0abXYefgh");
    let read = disk.read_at(8, &mut room) == Taken::Bytes(2) && room.starts_with(b"gh");
    let ended = disk.read_at(10, &mut room) == Taken::End
        && disk.read_at(99, &mut room) == Taken::End;
    written && read && ended && disk.faults == 0
}

/// Whether a write that finds no room fails, and a later one that finds some is done.
pub fn a_full_disk_fails(alloc: Global) -> bool {
    let mut disk = FileDisk::new(SlowFile::new(alloc, 10, NEVER));
    let failed = disk.write_at(8, b"abcd") == Given::Failed
        && failed_by(&disk, ErrorKind::StorageFull)
        && disk.faults == 1;
    failed
        && disk.write_at(0, b"xy") == Given::All
        && disk.file.has(b"xy\0\0\0\0\0\0ab")
        && disk.faults == 1
}

/// Whether each call fails after a sync that failed, and changes nothing, until the file is opened anew.
pub fn a_failed_sync_ends_a_disk(alloc: Global) -> bool {
    let mut room = [0u8; 8];
    let mut disk = FileDisk::new(SlowFile::new(alloc, 64, 1));
    let begun = disk.write_at(0, b"ab") == Given::All && disk.sync() == Given::All;
    let failed = disk.sync() == Given::Failed && failed_by(&disk, ErrorKind::TimedOut);
    let ended = disk.write_at(0, b"cd") == Given::Failed
        && disk.read_at(0, &mut room) == Taken::Failed
        && disk.sync() == Given::Failed
        && failed_by(&disk, ErrorKind::Other)
        && disk.faults == 4;
    let FileDisk { file, .. } = disk;
    let kept = file.has(b"ab");
    let mut anew = FileDisk::new(file);
    begun && failed && ended && kept && anew.sync() == Given::All && anew.faults == 0
}

fn failed_by<D: Explains>(disk: &D, kind: ErrorKind) -> bool {
    match disk.cause() {
        Some(error) => error.kind() == kind,
        None => false,
    }
}

// A disk over a file that is not looked for yet.
fn disk_at<'r, R: Files<File = File> + AllocGlobal>(
    rt: &'r R,
    path: &'r str,
) -> FileDisk<AutosaveFile<'r, R>> {
    FileDisk::new(AutosaveFile::new(rt, path))
}

// Whether a file can't be opened, for this reason.
fn is_refused<R: Files<File = File> + AllocGlobal>(rt: &R, path: &str, kind: ErrorKind) -> bool {
    let mut disk = disk_at(rt, path);
    disk.sync() == Given::Failed && disk.faults == 1 && failed_by(&disk, kind)
}

// Makes a file that is its owner's alone.
fn put<R: Files<File = File>>(rt: &R, path: &str, text: &str) -> bool {
    let made = OpenOptions::new()
        .write(true)
        .create_new(true)
        .mode(0o600)
        .open(rt, path);
    match made {
        Ok(mut file) => file.write_all(text.as_bytes()).is_ok(),
        Err(_) => false,
    }
}

// Whether there is nothing of this name.
fn is_missing<R: Files<File = File>>(rt: &R, path: &str) -> bool {
    match fs::exists(rt, path) {
        Ok(exists) => !exists,
        Err(_) => false,
    }
}

// Saves a text by a saver over a file, and says whether that was done, and whether a configuration was saved there before.
fn saves<R: Files<File = File> + AllocGlobal>(
    rt: &R,
    alloc: Global,
    path: &str,
    serial: u32,
    text: &[u8],
) -> (bool, bool) {
    if text.len() > MAX_KEPT_BYTES {
        return (false, false);
    }
    match Saver::open(alloc, disk_at(rt, path)) {
        Ok((mut saver, tree)) => {
            let given = saver.save(serial, text);
            drop(saver.close());
            (given == Given::All, tree.is_some())
        }
        Err(_) => (false, false),
    }
}

/// Whether what is saved in a file is found there, and each of two saves has its slot.
pub fn a_file_has_what_was_saved<R: Files<File = File> + AllocGlobal>(rt: &R) -> bool {
    let first = saves(rt, rt.alloc(), "saved.bin", 2, b"{}");
    let second = saves(rt, rt.alloc(), "saved.bin", 1, b"null");
    let begins = match fs::read(rt, "saved.bin") {
        Ok(all) => {
            all.len() == 16_777_216 + 13 + 4
                && all
                    .as_slice()
                    .starts_with(b"\x01\0\0\0\0\0\0\0\x02\0\0\0\x02{}")
                && all
                    .as_slice()
                    .ends_with(b"\x01\0\0\0\0\0\0\0\x03\0\0\0\x04null")
        }
        Err(_) => false,
    };
    first == (true, false) && second == (true, true) && begins
}

/// Whether the file is made by the first write, and by no sync or read before.
pub fn a_file_is_made_by_the_first_write<R: Files<File = File> + AllocGlobal>(rt: &R) -> bool {
    let mut room = [0u8; 8];
    let mut disk = disk_at(rt, "made.bin");
    disk.sync() == Given::All
        && disk.read_at(0, &mut room) == Taken::End
        && is_missing(rt, "made.bin")
        && disk.write_at(0, b"\0\x01") == Given::All
        && disk.sync() == Given::All
        && disk.read_at(1, &mut room) == Taken::Bytes(1)
        && has_text(rt, "made.bin", "\0\x01")
}

/// Whether a file that another program made, a folder and a device are refused, and the file stays as it is.
pub fn what_is_no_saved_file_stays<R: Files<File = File> + AllocGlobal>(rt: &R) -> bool {
    put(rt, "other.bin", "hello\n")
        && is_refused(rt, "other.bin", ErrorKind::InvalidData)
        && is_refused(rt, ".", ErrorKind::InvalidInput)
        && is_refused(rt, "/dev/null", ErrorKind::InvalidInput)
        && has_text(rt, "other.bin", "hello\n")
}

/// Whether a file that has come since it was found missing stays as it is.
pub fn a_file_that_has_come_stays<R: Files<File = File> + AllocGlobal>(rt: &R) -> bool {
    let mut disk = disk_at(rt, "late.bin");
    disk.sync() == Given::All
        && put(rt, "late.bin", "hello\n")
        && disk.write_at(0, b"\0") == Given::Failed
        && failed_by(&disk, ErrorKind::AlreadyExists)
        && has_text(rt, "late.bin", "hello\n")
}

/// Whether an empty file that has come is used once nobody has it locked, and stays until then.
pub fn an_empty_file_is_used<R: Files<File = File> + AllocGlobal>(rt: &R) -> bool {
    let mut disk = disk_at(rt, "empty.bin");
    let begun = disk.sync() == Given::All;
    if !put(rt, "empty.bin", "") {
        return false;
    }
    let Ok(other) = fs::open(rt, "empty.bin") else {
        return false;
    };
    let refused = other.try_lock().is_ok()
        && disk.write_at(0, b"\0") == Given::Failed
        && failed_by(&disk, ErrorKind::ResourceBusy)
        && has_text(rt, "empty.bin", "");
    drop(other);
    begun
        && refused
        && disk.write_at(0, b"\0") == Given::All
        && disk.faults == 1
        && has_text(rt, "empty.bin", "\0")
}

/// Whether a file that one has open is refused to others, until it is closed.
pub fn a_file_is_open_once<R: Files<File = File> + AllocGlobal>(rt: &R) -> bool {
    let mut disk = disk_at(rt, "once.bin");
    let made = disk.write_at(0, b"\0") == Given::All;
    let refused = is_refused(rt, "once.bin", ErrorKind::ResourceBusy);
    drop(disk);
    made && refused && disk_at(rt, "once.bin").sync() == Given::All
}

/// Whether a sync fails once the file was moved.
pub fn a_file_that_was_moved_is_missed<R: Files<File = File> + AllocGlobal>(rt: &R) -> bool {
    let mut disk = disk_at(rt, "moved.bin");
    disk.write_at(0, b"\0") == Given::All
        && disk.sync() == Given::All
        && fs::rename(rt, "moved.bin", "away.bin").is_ok()
        && disk.write_at(0, b"\x01") == Given::All
        && disk.sync() == Given::Failed
        && failed_by(&disk, ErrorKind::NotFound)
        && disk.write_at(0, b"\0") == Given::Failed
}

/// Whether a disk leaves a line for each call that fails, and none for another.
pub fn a_disk_leaves_messages<R: Wait>(rt: &R, alloc: Global, out: Stdout) -> bool {
    let messages = Messages::new(alloc, Busy::new(0, out));
    let disk = FileDisk::new(SlowFile::new(alloc, 2, 1));
    let mut disk = ReportingDisk::new(rt, alloc, disk, "autosave.bin", &messages);
    let told = disk.write_at(0, b"ab") == Given::All
        && disk.sync() == Given::All
        && disk.write_at(0, b"abc") == Given::Failed
        && disk.sync() == Given::Failed
        && disk.sync() == Given::Failed;
    messages.send(rt);
    told
}
