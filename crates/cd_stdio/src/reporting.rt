ghost use Rattle.std.specs.Prelude.{◌≡◌};

use crate::{Explains, Messages, TakesNow, caused_line, key_line};
use cd_outside::{Accepted, Given, Gives, Key, Lane, Received, Taken};
use cd_text::{NoMemory, Text};
use cd_wire::Intake;
use std::alloc::Global;
use std::io;
use std::sync::Wait;

/// A lane that writes the messages that wait before it waits for its next connection, and leaves one where its accept has failed,
/// which ends it. It also leaves one where a log line could not be written, but no other of that writer until a line was.
pub struct Reporting<'m, R: Wait, L, W: TakesNow> {
    rt: &'m R,
    alloc: Global,
    pub lane: L,
    messages: &'m Messages<W>,
    // The log writer of the line that could not be written last, unless one was since.
    unwritten: Option<Text>,
}

impl<'m, R: Wait, L: Drop, W: TakesNow> Drop for Reporting<'m, R, L, W> {
    fn drop(self) {
        let Self {
            rt: _,
            alloc: _,
            lane: _,
            messages: _,
            unwritten: _,
        } = self;
    }
}

impl<'m, R: Wait, L: Lane + Explains, W: TakesNow> Reporting<'m, R, L, W> {
    /// This lane, with messages of here.
    pub fn new(
        rt: &'m R,
        alloc: Global,
        lane: L,
        messages: &'m Messages<W>,
    ) -> Reporting<'m, R, L, W>
        ensures { result.lane ≡ lane }
    {
        Reporting {
            rt,
            alloc,
            lane,
            messages,
            unwritten: None,
        }
    }

    // Leaves a message of a line that could not be written, unless the one before it could not either. It answers the writer's name.
    fn report_line(&self, key: &Key) -> Option<Text> {
        let Key::Writer(name) = key else {
            return None;
        };
        let is_known = match &self.unwritten {
            Some(unwritten) => is_named(key, unwritten),
            None => false,
        };
        if !is_known
            && let Some(cause) = self.lane.cause()
            && let Ok(line) = unwritten_line(self.alloc, key, cause)
        {
            self.messages.leave(self.rt, line);
        }
        name.copy(self.alloc).ok()
    }

    fn report(&self, accepted: &Accepted) {
        if *accepted == Accepted::Failed
            && let Ok(line) = failed_line(self.alloc, self.lane.cause())
        {
            self.messages.leave(self.rt, line);
            self.messages.send(self.rt);
        }
    }
}

// The log writer whose line could not be written, after one was written to the writer of the key.
fn still_unwritten(unwritten: Option<Text>, key: &Key) -> Option<Text> {
    let name = unwritten?;
    if is_named(key, &name) {
        return None;
    }
    Some(name)
}

fn is_named(key: &Key, name: &Text) -> bool {
    match key {
        Key::Writer(writer) => writer.equals(name.as_str()),
        Key::Listen(_) => false,
    }
}

// What is said of a log writer to which a line could not be written.
fn unwritten_line(alloc: Global, key: &Key, cause: io::Error) -> Result<Text, NoMemory> {
    let words = format!(in alloc; "{cause}")?;
    key_line(alloc, key, words.as_str())
}

// What is said of a lane whose accept has failed.
fn failed_line(alloc: Global, cause: Option<io::Error>) -> Result<Text, NoMemory> {
    let what = "a worker ends, since it can't accept";
    match cause {
        Some(cause) => {
            let words = format!(in alloc; "{cause}")?;
            caused_line(alloc, what, words.as_str())
        }
        None => caused_line(alloc, what, "out of memory"),
    }
}

impl<'m, R: Wait, L: Lane + Explains, W: TakesNow> Lane for Reporting<'m, R, L, W> {
    ghost faults = { λ reporting. L.faults reporting.lane };

    ghost busy = { λ reporting. L.busy reporting.lane };

    ghost past = { λ reporting. L.past reporting.lane };

    ghost since = { λ reporting. L.since reporting.lane };

    fn accept(&mut self) -> Accepted {
        self.messages.send(self.rt);
        let accepted = self.lane.accept();
        self.report(&accepted);
        accepted
    }

    fn read(&mut self, into: &mut [u8]) -> Taken {
        self.lane.read(into)
    }

    fn receive(&mut self, into: &mut Intake, room: &mut [u8]) -> Received {
        self.lane.receive(into, room)
    }

    fn rest(&mut self) {
        self.lane.rest();
    }

    fn write(&mut self, piece: &[u8]) -> Given {
        self.lane.write(piece)
    }

    fn log(&mut self, key: &Key, line: &Text) -> Given {
        let given = self.lane.log(key, line);
        self.unwritten = match given {
            Given::All => still_unwritten(self.unwritten.take(), key),
            Given::Failed => self.report_line(key),
        };
        given
    }

    fn keep<S: Wait>(&mut self, rt: &S, serial: u32, text: &[u8]) -> Given {
        self.lane.keep(rt, serial, text)
    }

    fn seen(&mut self, serial: u32) -> Given {
        self.lane.seen(serial)
    }

    fn end(&mut self) {
        self.lane.end();
    }
}

impl<'m, R: Wait, L: Gives + Explains, W: TakesNow> Gives for Reporting<'m, R, L, W> {
    fn give(&mut self, piece: &[u8]) -> usize {
        self.lane.give(piece)
    }
}
