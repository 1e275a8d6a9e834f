//! What standard error says at the end.
use crate::placed::Placed;
use crate::words::config_name;
use cd_stdio::{ConfigSource, Messages, TakesNow, caused_line, give};
use cd_text::{NoMemory, Text};
use cd_tree::JsonPlace;
use std::alloc::Global;
use std::io;
use std::io::Write;
use std::sync::Wait;

/// Says why the file of the configuration could not be read, or where it stops being JSON, where that is so: its name, and the words
/// of the system, or the place.
pub fn tell_cause<W: Write, F>(
    alloc: Global,
    error: &mut W,
    words: &[Text],
    config: &Placed<ConfigSource<F>>,
) {
    let Some(name) = config_name(words) else {
        return;
    };
    if let Some(cause) = config.source.cause {
        say(error, cause_line(alloc, name, cause));
    }
    if let Some(place) = config.place {
        say(error, place_line(alloc, name, place));
    }
}

fn say<W: Write>(error: &mut W, line: Result<Text, NoMemory>) {
    if let Ok(line) = line {
        let _ = give(error, line.as_str().as_bytes());
    }
}

fn place_line(alloc: Global, name: &Text, place: JsonPlace) -> Result<Text, NoMemory> {
    let JsonPlace { line, column } = place;
    let words = format!(in alloc; "it is not JSON from line {line}, column {column} on")?;
    caused_line(alloc, name.as_str(), words.as_str())
}

fn cause_line(alloc: Global, name: &Text, cause: io::Error) -> Result<Text, NoMemory> {
    let words = format!(in alloc; "{cause}")?;
    caused_line(alloc, name.as_str(), words.as_str())
}

/// Says how many connections were cut short, if any were, and writes the messages that still wait.
pub fn tell_cut<R: Wait, W: TakesNow>(rt: &R, alloc: Global, messages: &Messages<W>, cut: u64) {
    if cut > 0
        && let Ok(line) = cut_line(alloc, cut)
    {
        messages.leave(rt, line);
    }
    messages.send(rt);
}

fn cut_line(alloc: Global, cut: u64) -> Result<Text, NoMemory> {
    let what = if cut == 1 {
        format!(in alloc; "1 connection was cut")?
    } else {
        format!(in alloc; "{cut} connections were cut")?
    };
    caused_line(alloc, what.as_str(), "out of memory")
}
