/// Where in a line a reader is.
#[derive(Clone, Copy)]
pub enum Reading {
    /// Between words.
    Between,
    /// In a word without quotes.
    Bare,
    /// In a word in quotes.
    Quoted,
    /// In quotes, after a `\`.
    Escaped,
    /// Past the last word.
    Over,
}
