ghost use Rattle.std.specs.Prelude.{◌≡◌, ◌++◌, ◌∷◌, [], OnOk, OnErr, position};
ghost use Rattle.std.specs.Option.{option_copied};
ghost use Rattle.std.specs.Str.{bytes_eq};
ghost use Rattle.cd_stdio.specs.OpenWriters.{writer_of, without};

use cd_text::{List, NoMemory, Text};
use std::alloc::Global;

/// A log writer, and its name.
#[derive(Drop)]
pub struct Named<W> {
    pub name: Text,
    pub writer: W,
}

/// The log writers that are open, by their names.
#[derive(Drop)]
pub struct OpenWriters<W> {
    pub list: List<Named<W>>,
}

impl<W: Drop> OpenWriters<W> {
    /// None is open.
    pub fn new(alloc: Global) -> OpenWriters<W>
        ensures { result.list ≡ [] }
    {
        OpenWriters {
            list: List::new(alloc),
        }
    }

    /// The writer of this name, or `None` where none is open.
    pub fn find(&self, name: &str) -> Option<&W>
        ensures { option_copied result ≡ writer_of name.now self.now.list }
    {
        let named = self
            .list
            .as_slice()
            .iter()
            .find(|named| named.name.equals(name))?;
        Some(&named.writer)
    }

    /// Adds a writer that was opened. After `NoMemory` the others are as before.
    pub fn add(&mut self, name: Text, writer: W) -> Result<(), NoMemory>
        ensures ok { OnOk result (self.new.list ≡ self.old.list ++ record { name = name; writer = writer } ∷ []) }
        ensures err { OnErr result (self.new.list ≡ self.old.list) }
    {
        self.list.push(Named { name, writer })
    }

    /// Takes the writer of this name out, of several the first.
    pub fn take(&mut self, name: &str) -> Option<W>
        ensures taken { result ≡ writer_of name.now self.old.list }
        ensures left { self.new.list ≡ without name.now self.old.list }
    {
        let at = self.place_of(name)?;
        Some(self.list.remove(at).writer)
    }

    // The place of the first writer of this name.
    fn place_of(&self, name: &str) -> Option<usize>
        ensures { result ≡ position (λ one. bytes_eq one.name name.now) self.now.list }
    {
        self.list
            .as_slice()
            .iter()
            .position(|named| named.name.equals(name))
    }
}
