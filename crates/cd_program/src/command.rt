ghost use Rattle.std.specs.Prelude.{◌≡◌};
ghost use Rattle.cd_program.specs.Words.{command, with_file, storm_of};

use crate::initial::Initial;
use cd_text::{Text, number_of};

/// What the words of the command line ask for.
#[derive(Drop)]
pub enum Command {
    /// `stdio --config FILE`, `run --config FILE` or `run`: to serve the lanes, beginning with this configuration.
    Serve(Initial),
    /// `validate --config FILE`: to say whether the configuration is one.
    Validate,
    /// `adapt --config FILE`: to write the configuration that a Caddyfile means.
    Adapt,
    /// `storm N`: to serve the workload of a number over forms in memory. N is the decimal of a number below 2^64.
    Storm(u64),
    /// Nothing that is known.
    Unknown,
}

impl Command {
    /// What these words ask for.
    pub fn of(words: &[Text]) -> Command
        ensures { result ≡ command words.now }
    {
        match words {
            [word] if word.equals("run") => Command::Serve(Initial::Null),
            [word, number] if word.equals("storm") => storm_of(number.as_str()),
            [word, option, _] if option.equals("--config") => with_file(word),
            _ => Command::Unknown,
        }
    }
}

// What a word asks for that `--config FILE` follows.
fn with_file(word: &Text) -> Command
    ensures { result ≡ with_file word.now }
{
    if word.equals("stdio") {
        Command::Serve(Initial::OfFile)
    } else if word.equals("run") {
        Command::Serve(Initial::OfFile)
    } else if word.equals("validate") {
        Command::Validate
    } else if word.equals("adapt") {
        Command::Adapt
    } else {
        Command::Unknown
    }
}

// What a text asks for that follows `storm`.
fn storm_of(text: &str) -> Command
    ensures { result ≡ storm_of text.now }
{
    match number_of(text) {
        Some(number) => Command::Storm(number),
        None => Command::Unknown,
    }
}
