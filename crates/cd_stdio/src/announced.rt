ghost use Rattle.std.specs.Prelude.{◌≡◌};

use crate::{Messages, TakesNow, key_line, listening_line};
use cd_outside::{Fixtures, Key, Opened};
use cd_text::{NoMemory, Text};
use std::alloc::Global;
use std::io;
use std::sync::Wait;

/// What can say why it has failed.
pub trait Explains {
    /// Why the call that failed last has failed.
    fn cause(&self) -> Option<io::Error>;
}

/// Fixtures that leave a message for each listening address that they open, and for each key that can't be opened. They write
/// none themselves, so a slow reader of the messages holds up no change of the configuration.
pub struct Announced<'m, R: Wait, F, W: TakesNow> {
    rt: &'m R,
    alloc: Global,
    pub fixtures: F,
    messages: &'m Messages<W>,
}

impl<'m, R: Wait, F: Drop, W: TakesNow> Drop for Announced<'m, R, F, W> {
    fn drop(self) {
        let Self {
            rt: _,
            alloc: _,
            fixtures: _,
            messages: _,
        } = self;
    }
}

impl<'m, R: Wait, F: Fixtures + Explains, W: TakesNow> Announced<'m, R, F, W> {
    /// These fixtures, with messages left here.
    pub fn new(
        rt: &'m R,
        alloc: Global,
        fixtures: F,
        messages: &'m Messages<W>,
    ) -> Announced<'m, R, F, W>
        ensures { result.fixtures ≡ fixtures }
    {
        Announced {
            rt,
            alloc,
            fixtures,
            messages,
        }
    }

    fn announce(&self, key: &Key, opened: Opened) {
        let line = match opened {
            Opened::Ready => opened_line(self.alloc, key),
            Opened::Failed => unopened_line(self.alloc, key, self.fixtures.cause()),
        };
        if let Ok(Some(line)) = line {
            self.messages.leave(self.rt, line);
        }
    }
}

// What is said of a key that was opened.
fn opened_line(alloc: Global, key: &Key) -> Result<Option<Text>, NoMemory> {
    match key {
        Key::Listen(address) => Ok(Some(listening_line(alloc, address)?)),
        Key::Writer(_) => Ok(None),
    }
}

// What is said of a key that can't be opened.
fn unopened_line(
    alloc: Global,
    key: &Key,
    cause: Option<io::Error>,
) -> Result<Option<Text>, NoMemory> {
    let Some(cause) = cause else {
        return Ok(None);
    };
    let words = format!(in alloc; "{cause}")?;
    Ok(Some(key_line(alloc, key, words.as_str())?))
}

impl<'m, R: Wait, F: Fixtures + Explains, W: TakesNow> Fixtures for Announced<'m, R, F, W> {
    ghost faults = { λ announced. F.faults announced.fixtures };

    ghost calls = { λ announced. F.calls announced.fixtures };

    fn open_key(&mut self, key: &Key) -> Opened {
        let opened = self.fixtures.open_key(key);
        self.announce(key, opened);
        opened
    }

    fn close_key(&mut self, key: &Key) {
        self.fixtures.close_key(key);
    }

    fn shut(&mut self) {
        self.fixtures.shut();
    }
}
