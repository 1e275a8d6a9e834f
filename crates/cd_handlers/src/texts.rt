ghost use Rattle.std.specs.Prelude.{◌≡◌, []};
ghost use Rattle.std.specs.List.{list_any};
ghost use Rattle.cd_fill.specs.Filling.{open_brace};

use cd_text::Text;
use std::alloc::Global;

/// The empty text, which takes no memory.
pub(crate) fn no_text(alloc: Global) -> Text
    ensures { result ≡ [] }
{
    Text::from_string(String::new(alloc))
}

/// Whether a text has a `{`, so that it may have placeholders.
pub(crate) fn has_brace(text: &[u8]) -> bool
    ensures { result ≡ list_any open_brace text.now }
{
    text.iter().any(|byte| *byte == b'{')
}
