//! Bytes that were read and are kept no more. Only proofs see them: at run time there is nothing.
ghost use Rattle.std.specs.Prelude.{◌≡◌, ℕ, List, [], ◌++◌};
ghost use Rattle.std.specs.Borrow.{ftrue};

use std::marker::Model;

/// Bytes that were read and are kept no more. It takes no memory, and its calls do nothing: clauses name these bytes by it.
///
/// A type that reads an input in pieces holds one beside what it made of these bytes. Its invariant says that this was read from
/// them, so its model can be all bytes of the input.
#[derive(Drop)]
pub struct Dropped {
    /// The bytes.
    pub ghost bytes: { List ℕ },
}

impl Model for Dropped {
    ghost also_owns = { λ _. ftrue };
}

// It owns nothing, so threads may hand it on and share it.
unsafe impl Send for Dropped {}

unsafe impl Sync for Dropped {}

impl Dropped {
    /// No bytes.
    pub fn none() -> Dropped
        ensures { result.bytes ≡ [] }
    {
        Dropped {}
    }

    /// These, and then more.
    pub fn and(&self, more: &[u8]) -> Dropped
        ensures { result.bytes ≡ self.now.bytes ++ more.now }
    {
        Dropped {}
    }
}
