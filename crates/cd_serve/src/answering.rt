//! What is answered where a change is not made, and to the halt.
ghost use Rattle.std.specs.Prelude.{◌≡◌, ◌++◌, IfOk, string_bytes};
ghost use Rattle.cd_serve.specs.Faults.{key_words, words, status, fault_answer, halted_answer};

use crate::fault::ChangeFault;
use cd_addr::write;
use cd_admin::{done, error_answer};
use cd_outside::Key;
use cd_text::{NoMemory, Text};
use cd_wire::Answer;
use std::alloc::Global;

/// What kind of key it is, and its name, as `listen localhost:2019` or `writer stdout`.
pub fn key_words(alloc: Global, key: &Key) -> Result<Text, NoMemory>
    ensures { IfOk result (λ made. made ≡ key_words key.now) }
{
    let text = match key {
        Key::Listen(address) => {
            let address = write(alloc, address)?;
            format!(in alloc; "listen {}", address.as_str())?
        }
        Key::Writer(name) => format!(in alloc; "writer {}", name.as_str())?,
    };
    Ok(Text::from_string(text))
}

impl ChangeFault {
    /// The status of its answer: 500 where a key could not be opened, 503 where there is no room for a change.
    pub fn status(&self) -> u16
        ensures { result ≡ status self.now }
    {
        match self {
            ChangeFault::CannotOpen(_) => 500,
            ChangeFault::StillInUse(_) | ChangeFault::NoSerialLeft | ChangeFault::NoDraftLeft =>
                503,
        }
    }

    /// The words that say it.
    pub fn words(&self, alloc: Global) -> Result<Text, NoMemory>
        ensures { IfOk result (λ made. made ≡ words self.now) }
    {
        match self {
            ChangeFault::CannotOpen(key) => {
                let key = key_words(alloc, key)?;
                let text = format!(in alloc; "cannot open {}", key.as_str())?;
                Ok(Text::from_string(text))
            }
            ChangeFault::StillInUse(serial) => {
                let serial = *serial;
                let text = format!(in alloc; "configuration {serial} is still in use")?;
                Ok(Text::from_string(text))
            }
            ChangeFault::NoSerialLeft => Text::from_str(alloc, "no serial left"),
            ChangeFault::NoDraftLeft => Text::from_str(alloc, "no draft left"),
        }
    }

    /// The answer to the request that asked for the change: its words as JSON, as the admin API refuses.
    pub fn answer(&self, alloc: Global) -> Result<Answer<'static>, NoMemory>
        ensures { IfOk result (λ answer. answer ≡ fault_answer self.now) }
    {
        let words = self.words(alloc)?;
        error_answer(alloc, self.status(), words)
    }
}

/// The answer to the request that halts: nothing more comes on its connection. It takes no memory.
pub fn halted_answer(alloc: Global) -> Answer<'static>
    ensures { result ≡ halted_answer }
{
    let mut answer = done(alloc);
    answer.close = true;
    answer
}
