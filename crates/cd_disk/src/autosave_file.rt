ghost use Rattle.std.specs.Prelude.{◌≡◌, None};

use crate::attributes::{Attributes, Kind, fault_of, words_of};
use crate::gates::may_be_saved;
use crate::own_user::own_user;
use crate::trial::warning_of;
use crate::{RawFile, Warns};
use cd_autosave::SECOND_START;
use std::fs::{File, Files, Metadata, OpenOptions, TryLockError};
use std::io::ErrorKind;
use std::os::unix::fs::{FileExt, MetadataExt, OpenOptionsExt};
use std::path::Path;
use std::{fs, io};

/// The name of the file in which configurations are saved.
pub const AUTOSAVE_FILE: &str = "autosave.bin";

// Who may read and write the file: its owner. A configuration may have what others are not to see.
const MODE: u32 = 0o600;

/// The file in which configurations are saved. It is looked for by the first call, and made by the first write. It is locked while it
/// is open, so that no other server saves there.
///
/// # Errors
///
/// A call fails where the file can't be opened, and changes nothing: where another user could have written it or could read it
/// (`FileFault`), where another program has made it (`may_be_saved`), where another server has it open, and where a file of that
/// name came after it was found missing, unless that file is empty. A sync also fails where the file was moved or removed since.
pub struct AutosaveFile<'r, R: Files<File = File> + AllocGlobal> {
    files: &'r R,
    path: &'r str,
    found: Found,
    // Whether its folder was synced since the file was found or made.
    listed: bool,
    // Why a save would fail, as far as that was seen when the file was looked for.
    warning: Option<io::Error>,
}

// What is known of the file.
#[derive(Drop)]
enum Found {
    // It was not looked for yet, or could not be opened.
    Unknown,
    Missing,
    Open(File),
}

impl Found {
    fn is_open(&self) -> bool {
        match self {
            Found::Open(_) => true,
            Found::Unknown | Found::Missing => false,
        }
    }
}

impl<'r, R: Files<File = File> + AllocGlobal> Drop for AutosaveFile<'r, R> {
    fn drop(self) {
        let Self {
            files: _,
            path: _,
            found: _,
            listed: _,
            warning: _,
        } = self;
    }
}

impl<'r, R: Files<File = File> + AllocGlobal> AutosaveFile<'r, R> {
    /// The file at this path, which is not looked for yet.
    pub fn new(files: &'r R, path: &'r str) -> AutosaveFile<'r, R> {
        AutosaveFile {
            files,
            path,
            found: Found::Unknown,
            listed: false,
            warning: None,
        }
    }

    // Looks for the file where that was not done, and tries whether a save would succeed.
    fn look(&mut self) -> io::Result<Option<&File>> {
        if let Found::Unknown = &self.found {
            self.found = find(self.files, self.path)?;
            self.warning = warning_of(self.files, self.path, self.found.is_open());
        }
        match &self.found {
            Found::Open(file) => Ok(Some(file)),
            Found::Unknown | Found::Missing => Ok(None),
        }
    }

    // Makes the file where it is missing.
    fn make(&mut self) -> io::Result<()> {
        if self.look()?.is_none() {
            self.found = Found::Open(make(self.files, self.path)?);
        }
        Ok(())
    }
}

impl<'r, R: Files<File = File> + AllocGlobal> RawFile for AutosaveFile<'r, R> {
    ghost bytes = { λ _. None };

    fn read_at(&mut self, at: u64, into: &mut [u8]) -> io::Result<usize> {
        match self.look()? {
            Some(file) => Ok(file.read_at(into, at)?),
            None => Ok(0),
        }
    }

    #[tactic(auto, using(crate::proofs::Writing::writes_untold))]
    fn write_at(&mut self, at: u64, piece: &[u8]) -> io::Result<usize> {
        self.make()?;
        match &self.found {
            Found::Open(file) => Ok(file.write_at(piece, at)?),
            Found::Unknown | Found::Missing => Ok(0),
        }
    }

    /// Syncs the file, and its folder where that was not done since the file was found or made.
    fn sync(&mut self) -> io::Result<()> {
        let (files, path, listed) = (self.files, self.path, self.listed);
        let Some(file) = self.look()? else {
            return Ok(());
        };
        file.sync_data()?;
        is_there(files, path, file)?;
        if !listed {
            sync_folder(files, path)?;
            self.listed = true;
        }
        Ok(())
    }
}

impl<'r, R: Files<File = File> + AllocGlobal> Warns for AutosaveFile<'r, R> {
    fn warning(&self) -> Option<io::Error> {
        self.warning
    }
}

// Opens the file where there is one.
fn find<R: Files<File = File>>(files: &R, path: &str) -> io::Result<Found> {
    match fs::symlink_metadata(files, path) {
        Ok(named) => {
            let file = open(files, path, &named)?;
            is_of_saves(&file)?;
            Ok(Found::Open(file))
        }
        Err(error) if error.kind() == ErrorKind::NotFound => Ok(Found::Missing),
        Err(error) => Err(error),
    }
}

// Makes the file. A link is not followed, so nothing is made elsewhere. Where something of that name has come, it has to be an empty
// file: one that was made and could not be locked is found so by a later call.
fn make<R: Files<File = File>>(files: &R, path: &str) -> io::Result<File> {
    let made = OpenOptions::new()
        .read(true)
        .write(true)
        .create_new(true)
        .mode(MODE)
        .open(files, path);
    match made {
        Ok(file) => {
            lock(&file)?;
            Ok(file)
        }
        Err(error) if error.kind() == ErrorKind::AlreadyExists => take(files, path),
        Err(error) => Err(error),
    }
}

// Opens what has come since the file was found missing.
fn take<R: Files<File = File>>(files: &R, path: &str) -> io::Result<File> {
    let named = fs::symlink_metadata(files, path)?;
    let file = open(files, path, &named)?;
    is_empty(&file)?;
    Ok(file)
}

// Opens and locks a file that is there, where its owner alone can have written it and can read what is saved there.
fn open<R: Files<File = File>>(files: &R, path: &str, named: &Metadata) -> io::Result<File> {
    if let Some(fault) = fault_of(attributes_of(named), own_user(files)?) {
        return Err(io::Error::new(ErrorKind::InvalidInput, words_of(fault)));
    }
    let file = OpenOptions::new().read(true).write(true).open(files, path)?;
    if !is_same(named, &file.metadata()?) {
        return Err(io::Error::new(
            ErrorKind::InvalidInput,
            "another file has come in its place",
        ));
    }
    lock(&file)?;
    Ok(file)
}

fn attributes_of(named: &Metadata) -> Attributes {
    let kind = if named.is_symlink() {
        Kind::Link
    } else if named.is_file() {
        Kind::Regular
    } else {
        Kind::Other
    };
    Attributes {
        kind,
        owner: named.uid(),
        mode: named.mode(),
        names: named.nlink(),
    }
}

fn is_same(one: &Metadata, other: &Metadata) -> bool {
    one.dev() == other.dev() && one.ino() == other.ino()
}

fn is_empty(file: &File) -> io::Result<()> {
    if file.metadata()?.len() == 0 {
        Ok(())
    } else {
        Err(io::Error::new(
            ErrorKind::AlreadyExists,
            "it has come since it was found missing",
        ))
    }
}

fn lock(file: &File) -> io::Result<()> {
    match file.try_lock() {
        Ok(()) => Ok(()),
        Err(TryLockError::WouldBlock) => Err(io::Error::new(
            ErrorKind::ResourceBusy,
            "another server has it open",
        )),
        Err(TryLockError::Error(error)) => Err(error),
    }
}

fn is_of_saves(file: &File) -> io::Result<()> {
    let size = file.metadata()?.len();
    if may_be_saved(size, byte_at(file, 0)?, byte_at(file, SECOND_START)?) {
        Ok(())
    } else {
        Err(io::Error::new(ErrorKind::InvalidData, "it was made by another program"))
    }
}

// The byte at a place. Bytes past the end count as 0.
fn byte_at(file: &File, at: u64) -> io::Result<u8> {
    let mut byte = [0u8];
    file.read_at(&mut byte, at)?;
    Ok(byte[0])
}

// Whether the path still leads to the file.
fn is_there<R: Files<File = File>>(files: &R, path: &str, file: &File) -> io::Result<()> {
    let own = file.metadata()?;
    match fs::symlink_metadata(files, path) {
        Ok(named) if is_same(&named, &own) => Ok(()),
        Ok(_) => Err(moved()),
        Err(error) if error.kind() == ErrorKind::NotFound => Err(moved()),
        Err(error) => Err(error),
    }
}

fn moved() -> io::Error {
    io::Error::new(ErrorKind::NotFound, "it was moved or removed")
}

// After this the file is found in its folder after a crash.
fn sync_folder<R: Files<File = File>>(files: &R, path: &str) -> io::Result<()> {
    fs::open(files, folder_of(path))?.sync_all()
}

fn folder_of(path: &str) -> &str {
    match Path::new(path).parent() {
        Some(folder) if !folder.as_str().is_empty() => folder.as_str(),
        _ => ".",
    }
}
