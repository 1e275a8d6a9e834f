ghost use Rattle.std.specs.Prelude.{◌≡◌, codes, Ok};
ghost use Rattle.cd_module.specs.Bare.{bare};
ghost use Rattle.cd_module.specs.Settings.{name_of};
ghost use Rattle.cd_handlers.specs.Handlers.{handler};
ghost use Rattle.cd_handlers.specs.Names.{handler_name};
ghost use Rattle.cd_handlers.specs.declared.handler.Handler.{Handler};

use cd_tree::{Path, Tree};

/// Ids make no difference to a handler: trees that differ in ids alone are read alike, with the same settings or the same first
/// fault.
pub fn handlers_see_no_ids(tree: &Tree, other: &Tree, at: &Path)
    ensures { bare tree.now ≡ bare other.now → handler tree.now at.now ≡ handler other.now at.now }
{
    let _ = tree;
    let _ = other;
    let _ = at;
}

/// The name of a handler that was read is the text of its `handler`.
pub fn handlers_have_their_names(tree: &Tree, at: &Path)
    ensures { (read : Handler) → handler tree.now at.now ≡ Ok read → name_of (codes "handler") tree.now at.now ≡ Ok (handler_name read) }
{
    let _ = tree;
    let _ = at;
}
