ghost use Rattle.std.specs.Prelude.{◌≡◌, ◌↔◌, IsTrue, IfOk};

use cd_text::{NoMemory, Text};
use std::alloc::Global;
use std::marker::Model;
use std::sync::Arc;

/// A text that several owners have together, also in different threads. Nobody changes it, and it goes with its last owner.
/// Contracts see the list of its bytes.
///
/// It is one pointer, so that each value of a tree is small.
#[derive(Drop)]
pub struct SharedText {
    text: Arc<Text>,
}

impl Model for SharedText {
    ghost use Rattle.std.specs.Prelude.{List, ℕ};

    ghost Value = { List ℕ };

    ghost view = { λ shared. shared.text.value };
}

impl SharedText {
    /// The text with its first owner. It takes memory for a count of the owners, and copies no byte.
    pub fn new(alloc: Global, text: Text) -> Result<SharedText, NoMemory>
        ensures { IfOk result (λ made. made ≡ text) }
    {
        let text = Arc::new(alloc, text)?;
        Ok(SharedText { text })
    }

    /// A copy of this text, with its first owner.
    pub fn from_str(alloc: Global, text: &str) -> Result<SharedText, NoMemory>
        ensures { IfOk result (λ made. made ≡ text.now) }
    {
        SharedText::new(alloc, Text::from_str(alloc, text)?)
    }

    /// One owner more of the same text. NoMemory comes where the count of the owners is at its end.
    pub fn share(&self) -> Result<SharedText, NoMemory>
        ensures { IfOk result (λ made. made ≡ self.now) }
    {
        let text = Arc::try_clone(&self.text)?;
        Ok(SharedText { text })
    }

    /// The text, to look at.
    pub fn as_str(&self) -> &str
        ensures { result.now ≡ self.now }
    {
        self.text.as_str()
    }

    /// A copy that is nobody else's.
    pub fn copy(&self, alloc: Global) -> Result<Text, NoMemory>
        ensures { IfOk result (λ made. made ≡ self.now) }
    {
        Text::from_str(alloc, self.as_str())
    }

    /// Whether this is the text.
    pub fn equals(&self, other: &str) -> bool
        ensures { IsTrue result ↔ (self.now ≡ other.now) }
    {
        self.as_str() == other
    }
}
