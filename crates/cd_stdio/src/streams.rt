ghost use Rattle.std.specs.Prelude.{◌≡◌, ◌<◌, ◌≤◌, List, ℕ, true, false, length, take as front, None, Some, IsTrue, option_map};
ghost use Rattle.std.specs.Io.KnownBytes.{Appends};
ghost use Rattle.cd_outside.specs.declared.taken.Taken.TheVariants as taken;
ghost use Rattle.cd_outside.specs.declared.given.Given.TheVariants as given;
ghost use Rattle.cd_outside.specs.declared.accepted.Accepted.TheVariants as accepted;
ghost use Rattle.cd_outside.specs.Counts.{Rises};
ghost use Rattle.cd_outside.specs.Taken.{IsTakenWithin};
ghost use Rattle.cd_outside.specs.Given.{IsGivenOf};
ghost use Rattle.cd_outside.specs.Past.{after_accept, after_read, after_put, after_line, is_connection};
ghost use Rattle.cd_stdio.specs.Moving.{Takes, GivesFront};
ghost use Rattle.cd_stdio.specs.Names.{stream_at, is_standard};
ghost use Rattle.cd_stdio.specs.declared.names.Stream.TheVariants.{Nowhere};

use crate::{LogFile, OpenWriters, Stream, filename_of, give, put, stream_of, take};
use cd_outside::{Accepted, Address, Given, Gives, Key, Lane, Taken, given_of};
use cd_text::Text;
use std::alloc::Global;
use std::fs::{File, Files};
use std::io::{Read, Write};
use std::sync::Wait;

/// A lane whose only connection is a reader and a writer of the system, as standard input and output are. Its log lines go to
/// files, and to another writer, as standard error is.
pub struct StreamLane<'r, R: Wait + Files<File = File>, I, O, E> {
    rt: &'r R,
    alloc: Global,
    pub input: I,
    pub output: O,
    pub error: E,
    pub connected: bool,
    pub over: bool,
    pub faults: u64,
    // The log files that have had a line, by their filenames.
    files: OpenWriters<LogFile>,
}

impl<'r, R: Wait + Files<File = File>, I: Drop, O: Drop, E: Drop> Drop
    for StreamLane<'r, R, I, O, E> {
    fn drop(self) {
        let Self {
            rt: _,
            alloc: _,
            input: _,
            output: _,
            error: _,
            connected: _,
            over: _,
            faults: _,
            files: _,
        } = self;
    }
}

impl<'r, R: Wait + Files<File = File>, I: Read, O: Write, E: Write> StreamLane<'r, R, I, O, E> {
    /// A lane that was not asked for its connection yet.
    pub fn new(
        rt: &'r R,
        alloc: Global,
        input: I,
        output: O,
        error: E,
    ) -> StreamLane<'r, R, I, O, E>
        ensures connected { result.connected ≡ false }
        ensures over { result.over ≡ false }
        ensures streams { (result.input ≡ input) × (result.output ≡ output) × (result.error ≡ error) }
    {
        StreamLane {
            rt,
            alloc,
            input,
            output,
            error,
            connected: false,
            over: false,
            faults: 0,
            files: OpenWriters::new(alloc),
        }
    }
}

impl<'r, R: Wait + Files<File = File>, I, O, E: Write> StreamLane<'r, R, I, O, E> {
    fn try_log(&mut self, key: &Key, line: &[u8]) -> Given
        ensures connected { self.new.connected ≡ self.old.connected }
        ensures faults { self.new.faults ≡ self.old.faults }
        ensures written { is_standard (stream_at key.now) ≡ true → result ≡ given.All → Appends (E.contents self.old.error) (E.contents self.new.error) line.now }
        ensures dropped { stream_at key.now ≡ Some Nowhere → (result ≡ given.All) × (self.new.error ≡ self.old.error) }
    {
        let Key::Writer(name) = key else {
            return Given::Failed;
        };
        match stream_of(name.as_str()) {
            Some(Stream::Output | Stream::Error) => give(&mut self.error, line),
            Some(Stream::Nowhere) => Given::All,
            None => match filename_of(name.as_str()) {
                Some(path) => append(self.rt, self.alloc, &mut self.files, path, line),
                None => Given::Failed,
            },
        }
    }
}

impl<'r, R: Wait + Files<File = File>, I, O: Write, E> StreamLane<'r, R, I, O, E> {
    // Writes the piece to the output, and says how many of its bytes were given. Fewer than all are a fault.
    #[tactic(auto, using(crate::proofs::GivenParts::rises_for))]
    fn put(&mut self, piece: &[u8]) -> usize
        ensures connected { self.new.connected ≡ self.old.connected }
        ensures bound { result ≤ length piece.now }
        ensures cause { Rises self.old.faults self.new.faults (result < length piece.now) }
        ensures written { GivesFront result piece.now (O.contents self.old.output) (O.contents self.new.output) }
    {
        let count = put(&mut self.output, piece);
        if count < piece.len() {
            self.faults = self.faults.saturating_add(1);
        }
        count
    }
}

// Appends the line to the file, which is opened where it has had none.
fn append<R: Wait + Files<File = File>>(
    rt: &R,
    alloc: Global,
    files: &mut OpenWriters<LogFile>,
    path: &str,
    line: &[u8],
) -> Given {
    if let Some(file) = files.find(path) {
        return if file.append(rt, line).is_ok() {
            Given::All
        } else {
            Given::Failed
        };
    }
    let (Ok(name), Ok(file)) = (Text::from_str(alloc, path), LogFile::open(rt, path)) else {
        return Given::Failed;
    };
    if file.append(rt, line).is_err() {
        return Given::Failed;
    }
    // For want of memory the next line opens it again.
    let _ = files.add(name, file);
    Given::All
}

impl<'r, R: Wait + Files<File = File>, I: Read, O: Write, E: Write> Lane
    for StreamLane<'r, R, I, O, E> {
    ghost faults = { λ lane. lane.faults };

    ghost busy = { λ lane. lane.connected };

    ghost past = { λ _. None };

    ghost since = { λ _. None };

    fn accept(&mut self) -> Accepted
        requires { self.old.connected ≡ false }
        ensures busy { self.new.connected ≡ is_connection result }
        ensures past { None ≡ option_map (after_accept result) None }
        ensures cause { Rises self.old.faults self.new.faults (result ≡ accepted.Failed) }

        // there is one connection, and no other after it
        ensures once { IsTrue self.new.over }
        ensures over { self.old.over ≡ true → result ≡ accepted.Ended }
        ensures first { self.old.over ≡ false → ¬ (result ≡ accepted.Ended) }
    {
        if self.over {
            return Accepted::Ended;
        }
        self.over = true;
        match Address::stdio(self.alloc) {
            Ok(address) => {
                self.connected = true;
                Accepted::Connection(address)
            }
            Err(_) => {
                self.faults = self.faults.saturating_add(1);
                Accepted::Failed
            }
        }
    }

    fn read(&mut self, into: &mut [u8]) -> Taken
        requires busy { self.old.connected ≡ true }
        requires room { 0 < length into.old }
        ensures busy { self.new.connected ≡ true }
        ensures bound { IsTakenWithin result (length into.new) }
        ensures past { None ≡ option_map (after_read result into.new) None }
        ensures cause { Rises self.old.faults self.new.faults (result ≡ taken.Failed) }

        // the bytes are the next ones of the input
        ensures bytes { Takes result (I.remaining self.old.input) (I.remaining self.new.input) into.new }
    {
        let taken = take(&mut self.input, into);
        if taken == Taken::Failed {
            self.faults = self.faults.saturating_add(1);
        }
        taken
    }

    #[tactic(auto, using(crate::proofs::GivenParts::untold_part, crate::proofs::GivenParts::rises_for, crate::proofs::GivenParts::whole_given))]
    fn write(&mut self, piece: &[u8]) -> Given
        requires busy { self.old.connected ≡ true }
        requires some { 0 < length piece.now }
        ensures busy { self.new.connected ≡ true }
        ensures past { (part : List ℕ) × IsGivenOf result part piece.now × (None ≡ option_map (after_put part) None) }
        ensures cause { Rises self.old.faults self.new.faults (result ≡ given.Failed) }

        // an output that tells its bytes has all of them
        ensures written { result ≡ given.All → Appends (O.contents self.old.output) (O.contents self.new.output) piece.now }
    {
        given_of(self.put(piece), piece)
    }

    /// A line for `stdout` goes to standard error too, since standard output has the answers. A file is opened at its first line,
    /// and stays open. A file that can't be opened, a name of no writer, and a line that can't be written are failures.
    fn log(&mut self, key: &Key, line: &Text) -> Given
        requires { self.old.connected ≡ true }
        ensures busy { self.new.connected ≡ true }
        ensures past { None ≡ option_map (after_line result key.now line.now) None }
        ensures cause { Rises self.old.faults self.new.faults (result ≡ given.Failed) }

        // both standard streams are the one that is not the connection's
        ensures written { is_standard (stream_at key.now) ≡ true → result ≡ given.All → Appends (E.contents self.old.error) (E.contents self.new.error) line.now }
        ensures dropped { stream_at key.now ≡ Some Nowhere → (result ≡ given.All) × (self.new.error ≡ self.old.error) }
    {
        match self.try_log(key, line.as_str().as_bytes()) {
            Given::All => Given::All,
            Given::Failed => {
                self.faults = self.faults.saturating_add(1);
                Given::Failed
            }
        }
    }

    /// Nothing is kept here: the answer is `All`.
    fn keep<S: Wait>(&mut self, _rt: &S, _serial: u32, _text: &[u8]) -> Given {
        Given::All
    }

    fn seen(&mut self, _serial: u32) -> Given {
        Given::All
    }

    fn end(&mut self) {
        self.connected = false;
    }
}

impl<'r, R: Wait + Files<File = File>, I: Read, O: Write, E: Write> Gives
    for StreamLane<'r, R, I, O, E> {
    fn give(&mut self, piece: &[u8]) -> usize
        requires busy { self.old.connected ≡ true }
        requires some { 0 < length piece.now }
        ensures busy { self.new.connected ≡ true }
        ensures bound { result ≤ length piece.now }
        ensures past { None ≡ option_map (after_put (front result piece.now)) None }
        ensures cause { Rises self.old.faults self.new.faults (result < length piece.now) }

        // an output that tells its bytes has these at least, and no others
        ensures written { GivesFront result piece.now (O.contents self.old.output) (O.contents self.new.output) }
    {
        self.put(piece)
    }
}
