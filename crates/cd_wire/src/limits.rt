/// The most bytes of a head, with its line ends and the empty lines before it.
pub const MAX_HEAD_BYTES: usize = 16_384;

/// The most fields of a head.
pub const MAX_HEAD_FIELDS: usize = 64;

/// The most bytes of a body.
pub const MAX_BODY_BYTES: usize = 8_388_608;

/// The most bytes of the line before the data of a chunk, with its line end (RFC 9112, section 7.1).
pub const MAX_CHUNK_LINE_BYTES: usize = 1_024;

/// The most memory that an intake keeps where it has no bytes.
pub(crate) const MAX_IDLE_BYTES: usize = 65_536;
