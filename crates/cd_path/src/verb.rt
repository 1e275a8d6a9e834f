/// How a tree is edited at a path.
#[derive(Clone, Copy, PartialEq, Eq, Debug)]
pub enum Verb {
    /// Appends to a list, and sets anything else.
    Post,
    /// Makes what is absent, and inserts into a list.
    Put,
    /// Replaces what is present.
    Patch,
    /// Removes what is present.
    Delete,
}
