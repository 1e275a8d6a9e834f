ghost use Rattle.std.specs.Prelude.{◌≡◌, ◌∷◌, ◌++◌, [], IfOk, OnOk, string_bytes, if◌then◌else◌};
ghost use Rattle.cd_tree.specs.Path.{◌▸◌, written};

use cd_text::{List, NoMemory, Text};
use std::alloc::Global;

/// The way to a value in a tree: names of members, and places in lists in decimal.
#[derive(Debug, Drop)]
pub struct Path {
    pub parts: List<Text>,
}

impl Path {
    /// The way to the tree itself, which has no parts. It takes no memory.
    pub fn root(alloc: Global) -> Path
        ensures { result.parts ≡ [] }
    {
        Path {
            parts: List::new(alloc),
        }
    }

    /// A copy.
    pub fn copy(&self, alloc: Global) -> Result<Path, NoMemory>
        ensures { IfOk result (λ path. path ≡ self.now) }
    {
        let mut parts = List::new(alloc);
        for part in self.parts.as_slice() {
            parts.push(part.copy(alloc)?)?;
        }
        Ok(Path { parts })
    }

    /// The way to a member of the value that this way leads to.
    pub fn member(&self, alloc: Global, name: &str) -> Result<Path, NoMemory>
        ensures { IfOk result (λ path. path ≡ self.now ▸ name.now) }
    {
        let mut path = self.copy(alloc)?;
        path.parts.push(Text::from_str(alloc, name)?)?;
        Ok(path)
    }

    /// The written form: `/` and the parts joined by `/`, so `/` alone for the tree itself.
    pub fn to_text(&self, alloc: Global) -> Result<Text, NoMemory>
        ensures { IfOk result (λ made. made ≡ written self.now) }
    {
        let mut text = String::from_str(alloc, "/")?;
        let parts = self.parts.as_slice();
        for place in 0..parts.len() {
            add_part(&mut text, place == 0, parts[place].as_str())?;
        }
        Ok(Text::from_string(text))
    }
}

/// Adds a part, after a slash unless it is the first.
fn add_part(text: &mut String, is_first: bool, part: &str) -> Result<(), NoMemory>
    ensures { OnOk result (string_bytes text.new
        ≡ string_bytes text.old ++ (if is_first then part.now else 47 ∷ part.now)) }
{
    if !is_first {
        text.push('/')?;
    }
    text.push_str(part)?;
    Ok(())
}
