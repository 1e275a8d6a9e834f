ghost use Rattle.std.specs.Prelude.{◌≡◌, IfOk};
ghost use Rattle.cd_text.specs.Gives.{Gives};
ghost use Rattle.cd_log.specs.Logging.{file, key_of, key_name, output_name, stream_named, stream_or_unknown, writer, writer_named};

use cd_module::{LoadFault, Settings, fields_of, name_of, needed};
use cd_outside::Key;
use cd_text::{NoMemory, Text};
use cd_tree::{Place, Tree};
use std::alloc::Global;

/// Where the lines of a log go (Caddy, JSON Config Structure, `logging.logs.writer`).
#[derive(Debug, Drop)]
pub enum Writer {
    /// Standard output.
    Stdout,
    /// Standard error.
    Stderr,
    /// Nowhere.
    Discard,
    /// The end of the file of this name.
    File(Text),
}

impl Writer {
    /// The name of its module without the namespace `caddy.logging.writers`.
    pub fn output(&self) -> &'static str
        ensures { result.now ≡ output_name self.now }
    {
        match self {
            Writer::Stdout => "stdout",
            Writer::Stderr => "stderr",
            Writer::Discard => "discard",
            Writer::File(_) => "file",
        }
    }

    /// What is opened for it: `stdout`, `stderr`, `discard`, or `file:` and the filename.
    pub fn key(&self, alloc: Global) -> Result<Key, NoMemory>
        ensures { IfOk result (λ key. key ≡ key_of self.now) }
    {
        match self {
            Writer::File(name) => Ok(Key::Writer(file_key(alloc, name)?)),
            _ => Ok(Key::Writer(Text::from_str(alloc, self.output())?)),
        }
    }
}

fn file_key(alloc: Global, name: &Text) -> Result<Text, NoMemory>
    ensures { IfOk result (λ text. text ≡ key_name (Writer.File name.now)) }
{
    let mut key = String::from_str(alloc, "file:")?;
    key.push_str(name.as_str())?;
    Ok(Text::from_string(key))
}

// ---- reading

// The writer of that name, of those without settings.
fn stream_named(name: &Text) -> Option<Writer>
    ensures { result ≡ stream_named name.now }
{
    if name.equals("stdout") {
        Some(Writer::Stdout)
    } else if name.equals("stderr") {
        Some(Writer::Stderr)
    } else if name.equals("discard") {
        Some(Writer::Discard)
    } else {
        None
    }
}

fn read_stream(alloc: Global, name: &Text, tree: &Tree, at: &Place<'_>) -> Result<Writer, LoadFault>
    ensures { Gives LoadFault.NoMemory result (stream_or_unknown (stream_named name.now) name.now tree.now at.now) }
{
    match stream_named(name) {
        Some(stream) => {
            let _ = fields_of(alloc, tree, at, "output")?;
            Ok(stream)
        }
        None => Err(LoadFault::unknown_module(alloc, "caddy.logging.writers.", name.as_str(), at)),
    }
}

#[tactic(auto, unfolding(crate::specs::Logging::file))]
fn read_file(alloc: Global, tree: &Tree, at: &Place<'_>) -> Result<Writer, LoadFault>
    ensures { Gives LoadFault.NoMemory result (file tree.now at.now) }
{
    let fields = fields_of(alloc, tree, at, "output filename")?;
    let name = needed::<Text>(alloc, &fields, at, "filename")?;
    Ok(Writer::File(name))
}

#[tactic(auto, unfolding(crate::specs::Logging::writer_named))]
fn read_named(alloc: Global, name: &Text, tree: &Tree, at: &Place<'_>) -> Result<Writer, LoadFault>
    ensures { Gives LoadFault.NoMemory result (writer_named name.now tree.now at.now) }
{
    if name.equals("file") {
        read_file(alloc, tree, at)
    } else {
        read_stream(alloc, name, tree, at)
    }
}

impl Settings for Writer {
    ghost reader = { writer };

    #[tactic(auto, unfolding(crate::specs::Logging::writer))]
    fn read(alloc: Global, tree: &Tree, at: &Place<'_>) -> Result<Writer, LoadFault> {
        let name = name_of(alloc, tree, at, "output")?;
        read_named(alloc, &name, tree, at)
    }
}
