//! A path and a query as one text.
ghost use Rattle.std.specs.Prelude.{◌≡◌, IfOk};
ghost use Rattle.cd_rewrite.specs.UriText.{path_text, uri_text};

use cd_fill::Lent;
use cd_text::{NoMemory, Octets};
use percent_encoding::{AsciiSet, NON_ALPHANUMERIC, ascii_set, percent_encode};
use std::alloc::Global;

/// The ASCII bytes that a path does not have as they are (RFC 3986, section 3.3).
const ESCAPED: AsciiSet = ascii_set!(
    NON_ALPHANUMERIC
        .remove(b'-')
        .remove(b'.')
        .remove(b'_')
        .remove(b'~')
        .remove(b'!')
        .remove(b'$')
        .remove(b'&')
        .remove(b'\'')
        .remove(b'(')
        .remove(b')')
        .remove(b'*')
        .remove(b'+')
        .remove(b',')
        .remove(b';')
        .remove(b'=')
        .remove(b':')
        .remove(b'@')
        .remove(b'/')
);

/// A path and a query as one text: the path with what it can't have escaped, and behind a `?` the query as it is.
#[tactic(auto, unfolding(crate::specs::UriText::uri_text))]
pub(crate) fn uri_text(
    alloc: Global,
    path: &[u8],
    query: &Option<Lent<'_, u8>>,
) -> Result<Octets, NoMemory>
    ensures { IfOk result (λ made. made ≡ uri_text path.now query.now) }
{
    let mut made = path_text(alloc, path)?;
    if let Some(query) = query {
        made.push(b'?')?;
        made.append(query.as_slice())?;
    }
    Ok(made)
}

#[tactic(auto, using(crate::proofs::PathBytes::path_text_is))]
fn path_text(alloc: Global, path: &[u8]) -> Result<Octets, NoMemory>
    ensures { IfOk result (λ made. made ≡ path_text path.now) }
{
    let mut text = String::new(alloc);
    percent_encode(path, ESCAPED).append_to(&mut text)?;
    Ok(Octets::from_vec(text.into_bytes()))
}
