ghost use Rattle.std.specs.Prelude.{◌≡◌};
ghost use Rattle.std.specs.List.{list_any};
ghost use Rattle.std.specs.Str.{bytes_eq};

use cd_text::Text;

/// Whether a value is one of the texts. Case counts, and it takes no memory.
pub fn is_listed(texts: &[Text], value: &[u8]) -> bool
    ensures { result ≡ list_any (bytes_eq value.now) texts.now }
{
    texts
        .iter()
        .any(|listed| value == listed.as_str().as_bytes())
}
