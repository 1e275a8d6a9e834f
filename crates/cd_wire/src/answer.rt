use crate::fields::Field;
use crate::lent::Lent;
use cd_text::List;

/// An answer, before it is written out. Its parts may be lent by what a configuration was compiled to, and by the request.
#[derive(Debug, Drop)]
pub struct Answer<'a> {
    /// The status, from 100 to 999. Beyond these it has no reason phrase.
    pub status: u16,
    /// The fields, in any order. Content-Length, Connection and Transfer-Encoding among them, in any case, are not sent.
    pub fields: List<Field<'a>>,
    /// The body, which HEAD and the statuses 204 and 304 leave out.
    pub body: Lent<'a, u8>,
    /// Whether the connection is closed after the answer.
    pub close: bool,
}
