ghost use Rattle.std.specs.Prelude.{◌≡◌};
ghost use Rattle.cd_text.specs.Escapes.{begins_with_digits, escapes_are_whole};

/// Whether each `%` is followed by two hexadecimal digits, of either case (RFC 3986, section 2.1).
pub fn escapes_are_whole(mut text: &[u8]) -> bool
    ensures { result ≡ escapes_are_whole text.now }
{
    while let [first, rest @ ..] = text {
        if *first == b'%' && !begins_with_digits(rest) {
            return false;
        }
        text = rest;
    }
    true
}

// Whether two hexadecimal digits come first.
fn begins_with_digits(text: &[u8]) -> bool
    ensures { result ≡ begins_with_digits text.now }
{
    match text {
        [first, second, ..] => first.is_ascii_hexdigit() && second.is_ascii_hexdigit(),
        _ => false,
    }
}
