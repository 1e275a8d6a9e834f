use std::fs::{File, Files, OpenOptions};
use std::io::{ErrorKind, Write};
use std::os::unix::fs::FileTypeExt;
use std::sync::atomic::{AtomicBool, Ordering};
use std::sync::{Mutex, Wait};
use std::{fs, io};

/// A file that lanes append lines to. A line is one write to its end, and no lane waits for another.
#[derive(Drop)]
pub struct LogFile {
    file: File,
    // Whether its last line was cut, since the rest of it could not be written.
    is_cut: AtomicBool,
    // Who ends that line.
    ending: Mutex<()>,
}

impl LogFile {
    /// Opens a file, or makes it. A FIFO is refused, since opening one waits for a reader.
    pub fn open<R: Files<File = File>>(files: &R, path: &str) -> io::Result<LogFile> {
        if is_fifo(files, path) {
            return Err(io::Error::new(ErrorKind::InvalidInput, "it is a FIFO"));
        }
        let file = OpenOptions::new()
            .append(true)
            .create(true)
            .open(files, path)?;
        Ok(LogFile {
            file,
            is_cut: AtomicBool::new(false),
            ending: Mutex::new(()),
        })
    }

    /// Appends the whole line. Where the system takes a part of it, the rest is written too. A line of which only a part could be
    /// written is an error, and the next one begins after a line end.
    pub fn append<R: Wait>(&self, rt: &R, line: &[u8]) -> io::Result<()> {
        if self.is_cut.load(Ordering::SeqCst) {
            self.end_line(rt)?;
        }
        let mut file = &self.file;
        let mut rest = line;
        for _ in 0..u64::MAX {
            if rest.is_empty() {
                return Ok(());
            }
            match file.write(rest) {
                Ok(0) => return Err(self.fail(line, rest, io::Error::from(ErrorKind::WriteZero))),
                Ok(count) => rest = &rest[count..],
                Err(error) if error.kind() == ErrorKind::Interrupted => {}
                Err(error) => return Err(self.fail(line, rest, error)),
            }
        }
        Err(io::Error::from(ErrorKind::Interrupted))
    }

    // Notes whether a line was cut that failed with this rest.
    fn fail(&self, line: &[u8], rest: &[u8], error: io::Error) -> io::Error {
        if rest.len() < line.len() {
            self.is_cut.store(true, Ordering::SeqCst);
        }
        error
    }

    // Ends a line that was cut.
    fn end_line<R: Wait>(&self, rt: &R) -> io::Result<()> {
        let _ending = self.ending.lock(rt);
        if self.is_cut.load(Ordering::SeqCst) {
            let mut file = &self.file;
            file.write_all(b"\n")?;
            self.is_cut.store(false, Ordering::SeqCst);
        }
        Ok(())
    }
}

fn is_fifo<R: Files>(files: &R, path: &str) -> bool {
    match fs::metadata(files, path) {
        Ok(found) => found.file_type().is_fifo(),
        Err(_) => false,
    }
}
