//! The lines of matchers.
ghost use Rattle.std.specs.Prelude.{◌≡◌, is_some};
ghost use Rattle.std.specs.List.{list_any};
ghost use Rattle.cd_caddyfile.specs.Matchers.{with_line, kind_and_args, some_more, field_test, key_test, is_equals};
ghost use Rattle.cd_caddyfile.specs.Sites.{no_tests};

use cd_text::Octets;

/// Whether these words are a test, `KIND ARGS`.
pub fn is_test(words: &[Octets]) -> bool
    ensures { result ≡ is_some (with_line no_tests words.now) }
{
    match words {
        [] => false,
        [kind, args @ ..] => takes_args(kind.as_slice(), args),
    }
}

fn takes_args(kind: &[u8], args: &[Octets]) -> bool
    ensures { result ≡ is_some (kind_and_args no_tests kind.now args.now) }
{
    if kind == b"path".as_slice() {
        args.len() != 0
    } else if kind == b"method".as_slice() {
        args.len() != 0
    } else if kind == b"host".as_slice() {
        args.len() != 0
    } else if kind == b"header".as_slice() {
        args.len() == 2
    } else if kind == b"query".as_slice() {
        is_pair(args)
    } else {
        false
    }
}

fn is_pair(args: &[Octets]) -> bool
    ensures { result ≡ is_some (key_test no_tests args.now) }
{
    match args {
        [pair] => has_equals(pair.as_slice()),
        _ => false,
    }
}

fn has_equals(pair: &[u8]) -> bool
    ensures { result ≡ list_any is_equals pair.now }
{
    pair.iter().any(|byte| *byte == b'=')
}
