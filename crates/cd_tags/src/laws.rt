//! What the definitions mean beyond what a call says, each as a call that changes nothing.
ghost use Rattle.std.specs.Prelude.{◌≡◌, ◌≢◌, ◌<◌, ℕ, List, [], ◌∷◌, Ok, true, IsTrue};
ghost use Rattle.std.specs.Str.{is_utf8};
ghost use Rattle.cd_tree.specs.declared.tree.Tree.{Tree};
ghost use Rattle.cd_tags.specs.Encoding.{tag_text};
ghost use Rattle.cd_tags.specs.IfMatch.{IsDigest, IsTagOf};
ghost use Rattle.cd_tags.specs.Parts.{are_bytes, are_texts};
ghost use Rattle.cd_tags.specs.Tags.{tag_of, tag_holds};
ghost use Rattle.cd_tags.specs.declared.if_match.Tag.{Tag};

use cd_text::Text;
use cd_tree::Path;

/// A value of If-Match gives one tag at most.
pub fn values_have_one_tag()
    ensures { (value : List ℕ) (one other : Tag) → IsTagOf value one → IsTagOf value other → one ≡ other }
{}

/// The tag that is written of a path is the one that is read back, but for the path whose one part is the empty text: it is
/// written as the empty path is.
///
/// A call looks once at each part, since a text is known to be UTF-8 where it is seen.
pub fn tags_read_back(path: &Path)
    ensures { (hex : List ℕ)
        → path.now.parts ≢ [] ∷ []
        → IsDigest hex
        → IsTagOf (tag_text path.now hex) (record { path = path.now; hex = hex }) }
{
    see(path.parts.as_slice());
}

/// A tag that was just made holds, and is of its own path, with the same exception.
pub fn made_tags_hold(path: &Path)
    ensures { (tree : Tree) (text : List ℕ) (tag : Tag)
        → path.now.parts ≢ [] ∷ []
        → tag_of tree path.now ≡ Ok text
        → IsTagOf text tag
        → (tag.path ≡ path.now) × (tag_holds tree tag ≡ true) }
{
    see(path.parts.as_slice());
}

fn see(parts: &[Text])
    ensures { IsTrue (are_texts parts.now) }
{
    for part in parts {
        see_part(part.as_str());
    }
}

fn see_part(part: &str)
    ensures utf8 { IsTrue (is_utf8 part.now) }
    ensures bytes { IsTrue (are_bytes part.now) }
{
    for byte in part.as_bytes() {
        see_byte(*byte);
    }
}

fn see_byte(byte: u8)
    ensures { byte < 256 }
{
    let _ = byte;
}
