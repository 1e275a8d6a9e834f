//! What the call of a row came to.
ghost use Rattle.cd_tree.specs.Tree.{IsSound};

use crate::row::RowFault;
use cd_text::Octets;
use cd_tree::{Tree, print};
use std::alloc::Global;

/// What a call came to: the member by which a row wants it, and its bytes.
#[derive(Drop)]
pub struct Outcome {
    pub member: &'static str,
    pub bytes: Octets,
}

/// It gave a tree.
pub fn gives(alloc: Global, tree: &Tree) -> Result<Outcome, RowFault>
    requires { IsSound tree.now }
{
    let text = print(alloc, tree)?;
    says(alloc, "gives", text.as_str())
}

/// It refused, in these words.
pub fn refuses(alloc: Global, words: &str) -> Result<Outcome, RowFault> {
    says(alloc, "refused", words)
}

/// It came to this text, which a row wants by this member.
pub fn says(alloc: Global, member: &'static str, text: &str) -> Result<Outcome, RowFault> {
    let bytes = Octets::from_slice(alloc, text.as_bytes())?;
    Ok(Outcome { member, bytes })
}
