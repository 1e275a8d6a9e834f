ghost use Rattle.std.specs.Prelude.{◌≡◌};

use crate::{LogFile, OpenWriters, Stream, filename_of, stream_of};
use cd_text::Text;
use std::alloc::Global;
use std::fs::{File, Files};
use std::io;
use std::io::{ErrorKind, Write};
use std::sync::{Arc, Mutex, RwLock, Wait};

/// Where the lines of a log writer go.
#[derive(Drop)]
pub enum Writer {
    Stream(Stream),
    File(Arc<LogFile, Global>),
}

/// The log writers that lanes share. They are locked to look one up, and not while a line is written. Each standard stream has a
/// lock of its own, so a long line is whole there too; a lane waits for it only to write there itself.
#[derive(Drop)]
pub struct Writers<O, E> {
    alloc: Global,
    output: Mutex<O>,
    error: Mutex<E>,
    open: RwLock<OpenWriters<Writer>>,
}

impl<O: Write + Drop, E: Write + Drop> Writers<O, E> {
    /// None is open.
    pub fn new(alloc: Global, output: O, error: E) -> Writers<O, E> {
        Writers {
            alloc,
            output: Mutex::new(output),
            error: Mutex::new(error),
            open: RwLock::new(OpenWriters::new(alloc)),
        }
    }

    /// Opens what the name says: `stdout`, `stderr`, `discard`, or `file:` and a filename. A file that is not there is made. Another
    /// name can't be opened, and neither can a FIFO.
    pub fn open<R: Wait + Files<File = File>>(&self, rt: &R, name: &Text) -> io::Result<()> {
        let writer = self.writer(rt, name.as_str())?;
        let Ok(name) = name.copy(self.alloc) else {
            return Err(io::Error::from(ErrorKind::OutOfMemory));
        };
        match self.open.write(rt).add(name, writer) {
            Ok(()) => Ok(()),
            Err(_) => Err(io::Error::from(ErrorKind::OutOfMemory)),
        }
    }

    fn writer<R: Files<File = File>>(&self, files: &R, name: &str) -> io::Result<Writer> {
        if let Some(stream) = stream_of(name) {
            return Ok(Writer::Stream(stream));
        }
        let Some(path) = filename_of(name) else {
            return Err(io::Error::from(ErrorKind::InvalidInput));
        };
        let file = LogFile::open(files, path)?;
        match Arc::new(self.alloc, file) {
            Ok(file) => Ok(Writer::File(file)),
            Err(_) => Err(io::Error::from(ErrorKind::OutOfMemory)),
        }
    }

    /// Closes the writer of the name, if it is open. Its file is closed after the last line that is being written.
    pub fn close<R: Wait>(&self, rt: &R, name: &Text) {
        let _closed = self.open.write(rt).take(name.as_str());
    }

    /// Writes the whole line, as it is, to the writer of the name. A writer that is not open, and a write that fails, are errors.
    pub fn log<R: Wait>(&self, rt: &R, name: &Text, line: &[u8]) -> io::Result<()> {
        match self.find(rt, name)? {
            Writer::Stream(Stream::Output) => self.output.lock(rt).write_all(line),
            Writer::Stream(Stream::Error) => self.error.lock(rt).write_all(line),
            Writer::Stream(Stream::Nowhere) => Ok(()),
            Writer::File(file) => file.append(rt, line),
        }
    }

    // A share of the writer of the name.
    fn find<R: Wait>(&self, rt: &R, name: &Text) -> io::Result<Writer> {
        let open = self.open.read(rt);
        match open.find(name.as_str()) {
            Some(Writer::Stream(stream)) => Ok(Writer::Stream(*stream)),
            Some(Writer::File(file)) => match Arc::try_clone(file) {
                Ok(file) => Ok(Writer::File(file)),
                Err(_) => Err(io::Error::from(ErrorKind::OutOfMemory)),
            },
            None => Err(io::Error::from(ErrorKind::NotFound)),
        }
    }
}
