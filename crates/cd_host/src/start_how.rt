use cd_outside::Key;

/// How the start of the program went.
#[derive(Debug, Drop)]
pub enum StartHow {
    /// The first configuration was published, with serial 1.
    Published,
    /// This key of it could not be opened. What had been opened is closed again.
    FirstRefused(Key),
    /// Nothing was published, and nothing is left of what was drafted: there was no memory, or another pass has made entries before,
    /// or as many requests were begun or drafts made as may be.
    Unpublished,
}
