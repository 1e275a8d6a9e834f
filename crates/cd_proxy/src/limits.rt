/// The most informational responses before the final one (RFC 9110, section 15.2).
pub const MAX_INFORMATIONAL: usize = 8;

/// The most bytes of a response that are read at once.
pub(crate) const READ_BYTES: usize = 16_384;
