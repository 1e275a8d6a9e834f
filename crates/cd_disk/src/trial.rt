//! Whether a save would succeed in a folder.
use std::fs::{File, Files, OpenOptions};
use std::io::{ErrorKind, Write};
use std::os::unix::fs::OpenOptionsExt;
use std::{fs, io};

const MODE: u32 = 0o600;

/// What works, and may have seen that a later call will fail.
pub trait Warns {
    /// Why it will fail.
    fn warning(&self) -> Option<io::Error>;
}

/// Why a save in the file at this path would fail, if it would. Of a file that is there its folder need not be written to, so only a
/// disk that is full counts.
pub fn warning_of<R: Files<File = File> + AllocGlobal>(
    files: &R,
    path: &str,
    is_there: bool,
) -> Option<io::Error> {
    match try_folder(files, path) {
        Err(error) if !is_there || is_full(error.kind()) => Some(error),
        _ => None,
    }
}

fn is_full(kind: ErrorKind) -> bool {
    kind == ErrorKind::StorageFull || kind == ErrorKind::QuotaExceeded
}

// Makes a file of its own beside the path, writes a block and syncs it, and removes it. One that is there was left by a crash.
fn try_folder<R: Files<File = File> + AllocGlobal>(files: &R, path: &str) -> io::Result<()> {
    let name = format!(in files.alloc(); "{path}.trial")?;
    let name = name.as_str();
    let _ = fs::remove_file(files, name);
    let file = OpenOptions::new()
        .write(true)
        .create_new(true)
        .mode(MODE)
        .open(files, name)?;
    let filled = fill(&file);
    let _ = fs::remove_file(files, name);
    filled
}

fn fill(file: &File) -> io::Result<()> {
    let mut file = file;
    file.write_all(&[0u8; 4_096])?;
    file.sync_all()
}
