/// How far the making of a draft has come.
#[derive(Clone, Copy, Debug, PartialEq, Eq)]
pub struct Left {
    /// The number of the draft.
    pub number: u64,
    /// How many of its instances are made.
    pub made: u32,
    /// How many instances it is to have.
    pub modules: u32,
    /// How many of its apps are started.
    pub started: u32,
    /// How many apps it is to have.
    pub apps: u32,
    /// Whether a key of it could not be opened.
    pub failed: bool,
}

/// Whether more is left for the call.
#[derive(Clone, Copy, Debug, PartialEq, Eq)]
pub enum Step {
    Done,
    More,
}
