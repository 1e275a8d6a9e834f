ghost use Rattle.std.specs.Prelude.{◌≡◌, ◌<◌, ◌++◌, length, None, Some, option_map};
ghost use Rattle.cd_outside.specs.declared.taken.Taken.TheVariants.{Failed, End};
ghost use Rattle.cd_outside.specs.Counts.{Rises};
ghost use Rattle.cd_outside.specs.Taken.{IsTakenWithin, bytes_of, EndsOnly};
ghost use Rattle.cd_stdio.specs.Moving.{Takes};

use crate::take_or_fail;
use cd_outside::{Source, Taken};
use std::io;
use std::io::Read;

/// Where the bytes of the configuration come from.
#[derive(Drop)]
pub enum ConfigFile<R> {
    /// No file is named: there are none.
    Unnamed,
    /// The file that is named could not be opened.
    Unopened,
    Opened(R),
}

/// The source of the configuration.
#[derive(Drop)]
pub struct ConfigSource<R> {
    pub file: ConfigFile<R>,
    pub faults: u64,
    /// Why the file could not be opened, or why it could not be read last.
    pub cause: Option<io::Error>,
}

impl<R: Read> ConfigSource<R> {
    /// A source of the bytes of this file. Where it could not be opened, the first read fails.
    pub fn new(file: ConfigFile<R>) -> ConfigSource<R>
        ensures { result ≡ record { file = file; faults = 0; cause = None } }
    {
        ConfigSource {
            file,
            faults: 0,
            cause: None,
        }
    }

    /// A source over a file that could not be opened, for this reason. The first read fails.
    pub fn unopened(cause: io::Error) -> ConfigSource<R>
        ensures { result ≡ record { file = ConfigFile.Unopened; faults = 0; cause = Some cause } }
    {
        ConfigSource {
            file: ConfigFile::Unopened,
            faults: 0,
            cause: Some(cause),
        }
    }
}

impl<R: Read> Source for ConfigSource<R> {
    ghost faults = { λ source. source.faults };

    ghost left = { λ _. None };

    fn read(&mut self, into: &mut [u8]) -> Taken
        requires { 0 < length into.old }
        ensures bound { IsTakenWithin result (length into.new) }
        ensures bytes { None ≡ option_map (λ rest. bytes_of result into.new ++ rest) None }
        ensures end { EndsOnly result None }
        ensures cause { Rises self.old.faults self.new.faults (result ≡ Failed) }

        // what could not be opened fails, and what was opened is read on
        ensures unnamed { self.old.file ≡ ConfigFile.Unnamed → result ≡ End }
        ensures unopened { self.old.file ≡ ConfigFile.Unopened → result ≡ Failed }
        ensures opened { (reader : R) → self.old.file ≡ ConfigFile.Opened reader
            → (rest : R) × (self.new.file ≡ ConfigFile.Opened rest) × Takes result (R.remaining reader) (R.remaining rest) into.new }
    {
        let taken = read_file(&mut self.file, into, &mut self.cause);
        if taken == Taken::Failed {
            self.faults = self.faults.saturating_add(1);
        }
        taken
    }
}

fn read_file<R: Read>(
    file: &mut ConfigFile<R>,
    into: &mut [u8],
    cause: &mut Option<io::Error>,
) -> Taken
    requires { 0 < length into.old }
    ensures bound { IsTakenWithin result (length into.new) }
    ensures unnamed { file.old ≡ ConfigFile.Unnamed → result ≡ End }
    ensures unopened { file.old ≡ ConfigFile.Unopened → result ≡ Failed }
    ensures opened { (reader : R) → file.old ≡ ConfigFile.Opened reader
        → (rest : R) × (file.new ≡ ConfigFile.Opened rest) × Takes result (R.remaining reader) (R.remaining rest) into.new }
{
    match file {
        ConfigFile::Unnamed => Taken::End,
        ConfigFile::Unopened => Taken::Failed,
        ConfigFile::Opened(reader) => match take_or_fail(reader, into) {
            Ok(taken) => taken,
            Err(error) => {
                *cause = Some(error);
                Taken::Failed
            }
        },
    }
}
