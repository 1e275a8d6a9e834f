ghost use Rattle.std.specs.Prelude.{◌≡◌, ℕ, ◌<◌, [], ◌∷◌, ◌++◌, not, if◌then◌else◌, IfOk, OnOk, string_bytes};
ghost use Rattle.percent_encoding.specs.AsciiSet.{contains};
ghost use Rattle.cd_tags.specs.Encoding.{is_unreserved, encoded, encoded_parts, tag_text};

use cd_text::{NoMemory, Text};
use cd_tree::Path;
use percent_encoding::{AsciiSet, NON_ALPHANUMERIC, utf8_percent_encode};
use std::alloc::Global;

/// The tag of a path with these digits.
pub(crate) fn tag_text(alloc: Global, path: &Path, hex: &str) -> Result<Text, NoMemory>
    ensures { IfOk result (λ text. text ≡ tag_text path.now hex.now) }
{
    let mut out = String::new(alloc);
    out.push_str("\"/config/")?;
    push_parts(path.parts.as_slice(), &mut out)?;
    out.push_str(" ")?;
    out.push_str(hex)?;
    out.push_str("\"")?;
    Ok(Text::from_string(out))
}

fn push_parts(parts: &[Text], out: &mut String) -> Result<(), NoMemory>
    ensures { OnOk result (string_bytes out.new
        ≡ string_bytes out.old ++ encoded_parts parts.now) }
{
    let mut later = false;
    for part in parts {
        push_slash_if(later, out)?;
        push_part(part.as_str(), out)?;
        later = true;
    }
    Ok(())
}

fn push_slash_if(later: bool, out: &mut String) -> Result<(), NoMemory>
    ensures { OnOk result (string_bytes out.new
        ≡ string_bytes out.old ++ (if later then 47 ∷ [] else [])) }
{
    if later {
        out.push_str("/")?;
    }
    Ok(())
}

fn push_part(part: &str, out: &mut String) -> Result<(), NoMemory>
    ensures { OnOk result (string_bytes out.new ≡ string_bytes out.old ++ encoded part.now) }
{
    utf8_percent_encode(part, escaped()).append_to(out)?;
    Ok(())
}

/// The ASCII bytes that a part does not keep.
fn escaped() -> AsciiSet
    ensures { (b : ℕ) → b < 128 → contains result b ≡ not (is_unreserved b) }
{
    NON_ALPHANUMERIC
        .remove(b'-')
        .remove(b'.')
        .remove(b'_')
        .remove(b'~')
}
