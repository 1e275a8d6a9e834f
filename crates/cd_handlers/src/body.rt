//! The text of a body, and whether bodies are JSON.
ghost use Rattle.std.specs.Prelude.{◌≡◌, true, false, IfOk};
ghost use Rattle.cd_tree.specs.declared.tree.Tree.{out-Tree};
ghost use Rattle.cd_handlers.specs.Body.{nests, is_json, starts_plain};

use cd_text::{NoMemory, Text};
use cd_tree::{Tree, TreeFault, read};
use std::alloc::Global;
use std::marker::Model;

/// The text of a body, which is filled for each request. Whether it is JSON as it stands is found once; contracts see the text.
#[derive(Debug, Drop)]
pub struct BodyText {
    text: Text,
    json: bool,
}

impl Model for BodyText {
    ghost use Rattle.std.specs.Prelude.{◌≡◌, ℕ, List};
    ghost use Rattle.cd_handlers.specs.Body.{is_json};

    ghost Value = { List ℕ };

    ghost view = { λ body. body.text };

    ghost invariant = { λ body. body.json ≡ is_json body.text };
}

fn nests(tree: &Tree) -> bool
    ensures { result ≡ nests (out-Tree tree.now) }
{
    match tree {
        Tree::Items(_) => true,
        Tree::Object(_) => true,
        _ => false,
    }
}

fn starts_plain(byte: u8) -> bool
    ensures { result ≡ starts_plain byte }
{
    !(byte == b'{'
        || (byte == b'[' || (byte == b' ' || byte == b'\t' || byte == b'\n' || byte == b'\r')))
}

// Whether the first byte shows that the body is neither a list nor an object, so that it need not be read.
fn is_seen_plain(body: &[u8]) -> bool
    ensures { result ≡ true → is_json body.now ≡ false }
{
    match body.first() {
        Some(first) => starts_plain(*first),
        None => false,
    }
}

fn is_json(alloc: Global, body: &[u8]) -> Result<bool, NoMemory>
    ensures { IfOk result (λ is. is ≡ is_json body.now) }
{
    if is_seen_plain(body) {
        return Ok(false);
    }
    match read(alloc, body) {
        Ok(tree) => Ok(nests(&tree)),
        Err(TreeFault::NoMemory) => Err(NoMemory),
        Err(_) => Ok(false),
    }
}

impl BodyText {
    /// The text of a body.
    pub fn of(alloc: Global, text: Text) -> Result<BodyText, NoMemory>
        ensures { IfOk result (λ body. body ≡ text) }
    {
        let json = is_json(alloc, text.as_str().as_bytes())?;
        Ok(BodyText { text, json })
    }

    /// The text.
    pub fn text(&self) -> &Text
        ensures { result.now ≡ self.now }
    {
        &self.text
    }

    /// Whether a body that was filled of it is a list or an object in JSON. It is read where it differs from the text.
    pub(crate) fn is_json_as(&self, alloc: Global, body: &[u8]) -> Result<bool, NoMemory>
        ensures { IfOk result (λ is. is ≡ is_json body.now) }
    {
        if is_seen_plain(body) {
            return Ok(false);
        }
        if body == self.text.as_str().as_bytes() {
            return Ok(self.json);
        }
        is_json(alloc, body)
    }
}
