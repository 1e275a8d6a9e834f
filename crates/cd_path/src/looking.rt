ghost use Rattle.std.specs.Prelude.{◌≡◌, IfOk, IfSome};
ghost use Rattle.std.specs.Result.{result_map_both};
ghost use Rattle.std.specs.Option.{option_copied};
ghost use Rattle.cd_tree.specs.Tree.{IsSound};
ghost use Rattle.cd_path.specs.Looking.{look as look_of, child, member_at, ends_in_ellipsis};

use crate::fault::EditFault;
use crate::position::place_of;
use cd_text::Text;
use cd_tree::{Member, Path, Shared, Tree};

/// The value at the path, or `None` for an absent key of an object. It takes no memory, and never answers NoMemory.
///
/// It answers EllipsisVerb where the last part is `...`, and otherwise the fault of the first part that leads nowhere:
/// BadIndex or OutOfBounds at a list, NotTraversable at a value that is neither a list nor an object. An absent key on the
/// way counts as null.
pub fn look<'a>(tree: &'a Tree, path: &Path) -> Result<Option<&'a Tree>, EditFault>
    ensures exact { result_map_both option_copied (λ fault. fault) result
        ≡ look_of tree.now path.now }
    ensures sound { IsSound tree.now
        → IfOk result (λ found. IfSome (option_copied found) IsSound) }
{
    find(tree, path)
}

fn find<'a>(tree: &'a Tree, path: &Path) -> Result<Option<&'a Tree>, EditFault>
    ensures { result_map_both option_copied (λ fault. fault) result ≡ look_of tree.now path.now }
{
    let parts = path.parts.as_slice();
    if has_last_ellipsis(parts) {
        return Err(EditFault::EllipsisVerb);
    }
    let mut here = Some(tree);
    for part in parts {
        let Some(tree) = here else {
            return Err(EditFault::NotTraversable);
        };
        here = child_of(tree, part)?;
    }
    Ok(here)
}

/// Whether the last part is `...`.
pub(crate) fn has_last_ellipsis(parts: &[Text]) -> bool
    ensures { result ≡ ends_in_ellipsis parts.now }
{
    match parts.last() {
        None => false,
        Some(part) => part.equals("..."),
    }
}

/// The member or the element that a part names.
fn child_of<'a>(tree: &'a Tree, part: &Text) -> Result<Option<&'a Tree>, EditFault>
    ensures { result_map_both option_copied (λ fault. fault) result ≡ child part.now tree.now }
{
    match tree {
        Tree::Items(items) => {
            let at = place_of(items.len(), part.as_str())?;
            Ok(items.get(at))
        }
        Tree::Object(members) => Ok(member_of(members, part)),
        _ => Err(EditFault::NotTraversable),
    }
}

/// The value of a key, or `None` where it is absent.
pub(crate) fn member_of<'a>(members: &'a Shared<Member>, key: &Text) -> Option<&'a Tree>
    ensures { option_copied result ≡ member_at key.now members.now }
{
    for member in members.as_slice() {
        if member.key.equals(key.as_str()) {
            return Some(&member.value);
        }
    }
    None
}
