use cd_outside::Key;

/// Why the change that a request asks for was not made.
#[derive(Debug, Drop)]
pub enum ChangeFault {
    /// A listening address or a log writer could not be opened.
    CannotOpen(Key),
    /// The configuration with this serial still serves requests, and no more may stand beside it.
    StillInUse(u32),
    /// The current serial is the last one that may be published.
    NoSerialLeft,
    /// As many drafts were made as may be.
    NoDraftLeft,
}
