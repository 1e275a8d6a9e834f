ghost use Rattle.std.specs.Prelude.{◌≡◌, IfOk};
ghost use Rattle.cd_text.specs.Gives.{Gives};
ghost use Rattle.cd_tree.specs.Tree.{IsSound};
ghost use Rattle.hex.specs.Hex.{encode_lower};
ghost use Rattle.sha2.specs.Sha256.{sha256};
ghost use Rattle.cd_tree.specs.Tree.{text as text_of};
ghost use Rattle.cd_tree.specs.declared.tree.Tree.{Tree};
ghost use Rattle.cd_tags.specs.Encoding.{tag_text as tag_text_of};
ghost use Rattle.cd_tags.specs.Tags.{digest, digest_at, tag_of, tag_holds};

use crate::encoding::tag_text;
use crate::fault::TagFault;
use crate::if_match::Tag;
use cd_path::look;
use cd_text::{NoMemory, Text};
use cd_tree::{Path, Tree, print};
use sha2::{Digest, Sha256};
use std::alloc::Global;

/// The tag of what stands at a path of a tree, where an absent key of an object counts as null. It is an entity tag in quotes
/// (RFC 9110, section 8.8.3).
///
/// It answers NoPlace exactly where `look` refuses, with its refusal.
pub fn tag(alloc: Global, tree: &Tree, path: &Path) -> Result<Text, TagFault>
    requires { IsSound tree.now }
    ensures { Gives TagFault.NoMemory result (tag_of tree.now path.now) }
{
    let hex = digest_at(alloc, tree, path)?;
    Ok(tag_text(alloc, path, hex.as_str())?)
}

/// Whether what stands at the path of a tag still has its digits. Where `look` refuses the path it has not.
pub fn holds(alloc: Global, tree: &Tree, tag: &Tag) -> Result<bool, NoMemory>
    requires { IsSound tree.now }
    ensures { IfOk result (λ answer. answer ≡ tag_holds tree.now tag.now) }
{
    match digest_at(alloc, tree, &tag.path) {
        Ok(hex) => Ok(hex.equals(tag.hex.as_str())),
        Err(TagFault::NoPlace(_)) => Ok(false),
        Err(TagFault::NoMemory) => Err(NoMemory),
    }
}

/// The digits of what stands at a path.
fn digest_at(alloc: Global, tree: &Tree, path: &Path) -> Result<Text, TagFault>
    requires { IsSound tree.now }
    ensures { Gives TagFault.NoMemory result (digest_at tree.now path.now) }
{
    match look(tree, path) {
        Ok(Some(value)) => Ok(digest(alloc, value)?),
        Ok(None) => Ok(digest(alloc, &Tree::Null)?),
        Err(fault) => Err(TagFault::NoPlace(fault)),
    }
}

/// The tag of a value at a path, from the value's compact text.
pub fn tag_of_text(alloc: Global, path: &Path, text: &Text) -> Result<Text, NoMemory>
    ensures { (value : Tree) → text.now ≡ text_of value
        → IfOk result (λ made. made ≡ tag_text_of path.now (digest value)) }
{
    let hex = hex_digest(alloc, text.as_str())?;
    let made = tag_text(alloc, path, hex.as_str())?;
    Ok(made)
}

/// The digits of a value.
fn digest(alloc: Global, tree: &Tree) -> Result<Text, NoMemory>
    requires { IsSound tree.now }
    ensures { IfOk result (λ hex. hex ≡ digest tree.now) }
{
    let text = print(alloc, tree)?;
    let hex = hex_digest(alloc, text.as_str())?;
    Ok(hex)
}

/// SHA-256 (FIPS 180-4), in lower-case hexadecimal digits.
fn hex_digest(alloc: Global, text: &str) -> Result<Text, NoMemory>
    ensures { IfOk result (λ hex. hex ≡ encode_lower (sha256 text.now)) }
{
    let hex = hex::encode(alloc, Sha256::digest(text))?;
    Ok(Text::from_string(hex))
}
