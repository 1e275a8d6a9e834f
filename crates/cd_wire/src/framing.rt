/// How the body after a head is delimited (RFC 9112, section 6).
#[derive(Clone, Copy, Debug, PartialEq, Eq, Drop)]
pub enum Framing {
    /// It has so many bytes.
    Length(usize),
    /// It comes in chunks, up to one without data (RFC 9112, section 7.1).
    Chunked,
}
