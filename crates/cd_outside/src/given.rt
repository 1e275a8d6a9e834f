/// What a write answers.
#[derive(Clone, Copy, Debug, PartialEq, Eq)]
pub enum Given {
    /// The whole piece was given.
    All,
    /// The write failed. A part from the front of the piece may have been given, but not the whole. The faults rose.
    Failed,
}
