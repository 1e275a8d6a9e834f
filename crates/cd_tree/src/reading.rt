ghost use Rattle.std.specs.Prelude.{◌<◌, ◌↔◌, IfOk, IsTrue};
ghost use Rattle.cd_text.specs.Gives.{Gives};
ghost use Rattle.cd_tree.specs.Reading.{tree_of};
ghost use Rattle.cd_tree.specs.Tree.{IsSound};

use crate::fault::TreeFault;
use crate::lengths::text_length;
use crate::limits::{MAX_DEPTH, MAX_TEXT_BYTES};
use crate::marking::read_marked;
use crate::measure::nesting;
use crate::tree::Tree;
use crate::whole::is_whole;
use std::alloc::Global;

/// The tree of a JSON text (RFC 8259), or the first of the faults in this order: the text too long, no JSON, nesting too
/// deep, a number that is not whole in range, the tree's compact text too long. Of members with one name the last counts.
pub fn read(alloc: Global, bytes: &[u8]) -> Result<Tree, TreeFault>
    ensures exact { Gives TreeFault.NoMemory result (tree_of bytes.now) }
    ensures sound { IfOk result IsSound }
{
    if is_too_long(bytes.len()) {
        return Err(TreeFault::TooLong);
    }
    let tree = read_marked(alloc, bytes)?;
    if is_too_deep(nesting(&tree)) {
        return Err(TreeFault::TooDeep);
    }
    if !is_whole(&tree) {
        return Err(TreeFault::FractionOrRange);
    }
    // The definition tests the compact text too, though with its escapes it is never longer than what was read.
    if is_too_long(text_length(&tree)) {
        return Err(TreeFault::TooLong);
    }
    Ok(tree)
}

/// Whether a text of so many bytes is beyond the limit.
fn is_too_long(length: usize) -> bool
    ensures { IsTrue result ↔ (MAX_TEXT_BYTES < length) }
{
    length > MAX_TEXT_BYTES
}

/// Whether so many levels are beyond the limit.
fn is_too_deep(levels: usize) -> bool
    ensures { IsTrue result ↔ (MAX_DEPTH < levels) }
{
    levels > MAX_DEPTH
}
