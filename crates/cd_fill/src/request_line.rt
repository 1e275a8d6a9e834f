ghost use Rattle.std.specs.Prelude.{◌≡◌, [], IfOk, unwrap_or};

use cd_text::NoMemory;
use cd_wire::{Lent, Request};
use std::alloc::Global;

/// What is asked for, which handlers may rewrite. What they leave is lent by the request.
#[derive(Debug, Drop)]
pub struct RequestLine<'r> {
    /// The method, a token. Case counts.
    pub method: Lent<'r, u8>,
    /// The path, with its escapes read.
    pub path: Lent<'r, u8>,
    /// The query as it came, where there is one.
    pub query: Option<Lent<'r, u8>>,
    /// The path and the query as one text, with their escapes: what `{http.request.uri}` stands for.
    pub uri: Lent<'r, u8>,
}

/// The query of a request, where there is one.
pub(crate) fn lent_query<'r>(request: &'r Request) -> Option<Lent<'r, u8>>
    ensures { result ≡ request.now.query }
{
    match request.query() {
        Some(query) => Some(Lent::shared(query)),
        None => None,
    }
}

fn copy_query<'r>(
    alloc: Global,
    query: &Option<Lent<'r, u8>>,
) -> Result<Option<Lent<'r, u8>>, NoMemory>
    ensures { IfOk result (λ made. made ≡ query.now) }
{
    match query {
        Some(query) => Ok(Some(query.copy(alloc)?)),
        None => Ok(None),
    }
}

impl<'r> RequestLine<'r> {
    /// The query, and nothing where there is none. It takes no memory.
    pub fn query_or_empty(&self) -> &[u8]
        ensures { result.now ≡ unwrap_or self.now.query [] }
    {
        match &self.query {
            Some(query) => query.as_slice(),
            None => &[],
        }
    }

    /// A copy, of what is lent too.
    pub fn copy(&self, alloc: Global) -> Result<RequestLine<'r>, NoMemory>
        ensures { IfOk result (λ made. made ≡ self.now) }
    {
        Ok(RequestLine {
            method: self.method.copy(alloc)?,
            path: self.path.copy(alloc)?,
            query: copy_query(alloc, &self.query)?,
            uri: self.uri.copy(alloc)?,
        })
    }
}
