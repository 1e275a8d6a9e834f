/// What a text of settings is filled for.
#[derive(Clone, Copy, Debug, PartialEq, Eq)]
pub enum Form {
    /// A text by itself: what is written stays, and a placeholder is replaced as it is.
    Plain,
    /// A path: escapes that are written are read (RFC 3986, section 2.1), and a placeholder is replaced as it is.
    Path,
    /// A query: what is written stays, and what a placeholder stands for is encoded as in a form, but that of
    /// `http.request.uri.query`, which is one already (URL Standard, section 5.2).
    Query,
}
