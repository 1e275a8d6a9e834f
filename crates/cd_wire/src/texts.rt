//! Parts of texts, texts whose case does not count, and white space around them.
ghost use Rattle.std.specs.Prelude.{◌≡◌, ◌≤◌, length, take, drop, reverse};
ghost use Rattle.std.specs.Str.{bytes_eq, str_to_ascii_lowercase};
ghost use Rattle.httparse.specs.Grammar.{is_ows, skip_ows, trim_ows};

/// The bytes from a place on, which is inside the text or at its end.
pub fn rest_from(bytes: &[u8], at: usize) -> &[u8]
    requires { at ≤ length bytes.now }
    ensures { result.now ≡ drop at bytes.now }
{
    &bytes[at..]
}

/// The first bytes of a text, so many at most.
pub fn front_of(text: &[u8], most: usize) -> &[u8]
    ensures value { result.now ≡ take most text.now }
    ensures short { length result.now ≤ most }
    ensures within { length result.now ≤ length text.now }
{
    if text.len() <= most {
        text
    } else {
        &text[..most]
    }
}

/// Whether the bytes are this text of lower case, in any case of ASCII.
pub fn is_text(bytes: &[u8], text: &[u8]) -> bool
    requires { str_to_ascii_lowercase text.now ≡ text.now }
    ensures { result ≡ bytes_eq (str_to_ascii_lowercase bytes.now) text.now }
{
    bytes.eq_ignore_ascii_case(text)
}

fn is_white(byte: u8) -> bool
    ensures { result ≡ is_ows byte }
{
    byte == b' ' || byte == b'\t'
}

fn trimmed_front(mut bytes: &[u8]) -> &[u8]
    ensures { result.now ≡ skip_ows bytes.now }
{
    while let [first, rest @ ..] = bytes
        && is_white(*first)
    {
        bytes = rest;
    }
    bytes
}

fn trimmed_back(mut bytes: &[u8]) -> &[u8]
    ensures { result.now ≡ reverse (skip_ows (reverse bytes.now)) }
{
    while let [rest @ .., last] = bytes
        && is_white(*last)
    {
        bytes = rest;
    }
    bytes
}

/// The bytes without the spaces and tabs around them (RFC 9110, section 5.6.3).
#[tactic(auto, unfolding(httparse::specs::Grammar::trim_ows))]
pub fn trimmed(bytes: &[u8]) -> &[u8]
    ensures { result.now ≡ trim_ows bytes.now }
{
    trimmed_back(trimmed_front(bytes))
}
