use cd_stdio::{ConfigFile, ConfigSource};
use cd_text::{List, NoMemory, Text};
use std::alloc::Global;
use std::io::ErrorKind;
use std::rt::{Env, Files};
use std::{env, fs};

/// The words after the program's name. Words that are not UTF-8 are none that the program knows, so there are none then.
pub fn words_of<R: Env + AllocGlobal>(rt: &R, alloc: Global) -> Result<List<Text>, NoMemory> {
    let mut words = List::new(alloc);
    let arguments = match env::args(rt) {
        Ok(arguments) => arguments,
        Err(error) if error.kind() == ErrorKind::OutOfMemory => return Err(NoMemory),
        Err(_) => return Ok(words),
    };
    for word in arguments.skip(1) {
        words.push(Text::from_string(word))?;
    }
    Ok(words)
}

/// Whether this is the first of the words.
pub fn begins_with(words: &[Text], command: &str) -> bool {
    match words {
        [first, ..] => first.equals(command),
        [] => false,
    }
}

/// The name of the file of the configuration: what `--config` names, where it is the second of three words.
pub fn config_name(words: &[Text]) -> Option<&Text> {
    match words {
        [_, option, file] if option.equals("--config") => Some(file),
        _ => None,
    }
}

/// Whether standard error is to say where the configuration stops being JSON. Under `adapt` it never is, and under `stdio` nothing is
/// added.
pub fn looks_for_json(words: &[Text]) -> bool {
    begins_with(words, "run") || begins_with(words, "validate")
}

/// The file of the configuration.
pub fn config_source<R: Files>(rt: &R, words: &[Text]) -> ConfigSource<R::File> {
    match config_name(words) {
        Some(file) => match fs::open(rt, file.as_str()) {
            Ok(file) => ConfigSource::new(ConfigFile::Opened(file)),
            Err(error) => ConfigSource::unopened(error),
        },
        None => ConfigSource::new(ConfigFile::Unnamed),
    }
}
