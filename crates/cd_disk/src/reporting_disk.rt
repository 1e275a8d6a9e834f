ghost use Rattle.std.specs.Prelude.{◌≡◌};

use crate::Warns;
use cd_autosave::Disk;
use cd_outside::{Given, Taken};
use cd_stdio::{Explains, Messages, TakesNow, caused_line};
use cd_text::{NoMemory, Text};
use std::alloc::Global;
use std::io;
use std::sync::Wait;

/// A disk that leaves a message at each call that fails: what it is, and the words of the system. After the first sync, with which a
/// saver begins, it also leaves one where a save would fail. It writes none itself, so a slow reader of the messages holds up no save.
pub struct ReportingDisk<'m, R: Wait, D, W: TakesNow> {
    rt: &'m R,
    alloc: Global,
    pub disk: D,
    name: &'m str,
    messages: &'m Messages<W>,
    // Whether there was a sync.
    begun: bool,
}

impl<'m, R: Wait, D: Drop, W: TakesNow> Drop for ReportingDisk<'m, R, D, W> {
    fn drop(self) {
        let Self {
            rt: _,
            alloc: _,
            disk: _,
            name: _,
            messages: _,
            begun: _,
        } = self;
    }
}

impl<'m, R: Wait, D: Disk + Explains + Warns, W: TakesNow> ReportingDisk<'m, R, D, W> {
    /// This disk, with messages of here, which call it by this name.
    pub fn new(
        rt: &'m R,
        alloc: Global,
        disk: D,
        name: &'m str,
        messages: &'m Messages<W>,
    ) -> ReportingDisk<'m, R, D, W>
        ensures { result.disk ≡ disk }
    {
        ReportingDisk {
            rt,
            alloc,
            disk,
            name,
            messages,
            begun: false,
        }
    }

    fn report(&self) {
        if let Some(cause) = self.disk.cause()
            && let Ok(line) = failed_line(self.alloc, self.name, cause)
        {
            self.messages.leave(self.rt, line);
        }
    }

    fn warn(&self) {
        if let Some(cause) = self.disk.warning()
            && let Ok(line) = warning_line(self.alloc, self.name, cause)
        {
            self.messages.leave(self.rt, line);
        }
    }
}

// What is said of a call that has failed.
fn failed_line(alloc: Global, name: &str, cause: io::Error) -> Result<Text, NoMemory> {
    let words = format!(in alloc; "{cause}")?;
    caused_line(alloc, name, words.as_str())
}

// What is said where a save would fail.
fn warning_line(alloc: Global, name: &str, cause: io::Error) -> Result<Text, NoMemory> {
    let words = format!(in alloc; "no change can be saved in this folder: {cause}")?;
    caused_line(alloc, name, words.as_str())
}

impl<'m, R: Wait, D: Disk + Explains + Warns, W: TakesNow> Disk for ReportingDisk<'m, R, D, W> {
    ghost faults = { λ one. D.faults one.disk };

    ghost seen = { λ one. D.seen one.disk };

    ghost left_now = { λ one. D.left_now one.disk };

    ghost clock = { λ one. D.clock one.disk };

    ghost left_at = { λ one. D.left_at one.disk };

    ghost tells = { λ one. D.tells one.disk };

    ghost present = { λ one. D.present one.disk };

    fn read_at(&mut self, at: u64, into: &mut [u8]) -> Taken {
        let taken = self.disk.read_at(at, into);
        if taken == Taken::Failed {
            self.report();
        }
        taken
    }

    fn write_at(&mut self, at: u64, piece: &[u8]) -> Given {
        let given = self.disk.write_at(at, piece);
        if given == Given::Failed {
            self.report();
        }
        given
    }

    fn sync(&mut self) -> Given {
        let given = self.disk.sync();
        if given == Given::Failed {
            self.report();
        } else if !self.begun {
            self.warn();
        }
        self.begun = true;
        given
    }
}
