use cd_text::Octets;

/// How a word stood in its line.
#[derive(Clone, Copy)]
pub enum Mark {
    /// Without quotes.
    Bare,
    /// In quotes.
    Quoted,
    /// In quotes that the line doesn't close.
    Open,
}

/// A word of a line.
#[derive(Drop)]
pub struct Word {
    pub text: Octets,
    pub mark: Mark,
}
