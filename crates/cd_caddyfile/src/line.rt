use cd_text::{List, Octets};

/// What a line of a file does.
#[derive(Drop)]
pub enum Line {
    /// Nothing: it has no words.
    Empty,
    /// It closes a block.
    Closes,
    /// It opens a block, after these words.
    Opens(List<Octets>),
    /// It has these words.
    Says(List<Octets>),
    /// Nothing: a brace stands where none may.
    Misplaced,
}
