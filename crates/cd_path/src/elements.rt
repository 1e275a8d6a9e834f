ghost use Rattle.std.specs.Prelude.{◌≡◌, ◌≤◌, ◌<◌, ◌++◌, ◌∷◌, [], length, insert, remove, slice_set, IfOk, OnOk};

use cd_text::{List, NoMemory};
use cd_tree::{Shared, Tree, copy};
use std::alloc::Global;

/// Copies of the elements, with another one before that at `at`, or at the end.
pub(crate) fn with_inserted(
    alloc: Global,
    items: &Shared<Tree>,
    at: usize,
    new: Tree,
) -> Result<List<Tree>, NoMemory>
    requires { at ≤ length items.now }
    ensures { IfOk result (λ made. made ≡ insert items.now at new) }
{
    let items = items.as_slice();
    let mut made = List::new(alloc);
    append_copies(alloc, &mut made, &items[..at])?;
    made.push(new)?;
    append_copies(alloc, &mut made, &items[at..])?;
    Ok(made)
}

/// Copies of the elements, with another one in the place of that at `at`.
pub(crate) fn with_replaced(
    alloc: Global,
    items: &Shared<Tree>,
    at: usize,
    new: Tree,
) -> Result<List<Tree>, NoMemory>
    requires { at < length items.now }
    ensures { IfOk result (λ made. made ≡ slice_set items.now at new) }
{
    let items = items.as_slice();
    let mut made = List::new(alloc);
    append_copies(alloc, &mut made, &items[..at])?;
    made.push(new)?;
    append_copies(alloc, &mut made, &items[at + 1..])?;
    Ok(made)
}

/// Copies of the elements but that at `at`.
pub(crate) fn with_removed(
    alloc: Global,
    items: &Shared<Tree>,
    at: usize,
) -> Result<List<Tree>, NoMemory>
    requires { at < length items.now }
    ensures { IfOk result (λ made. made ≡ remove items.now at) }
{
    let items = items.as_slice();
    let mut made = List::new(alloc);
    append_copies(alloc, &mut made, &items[..at])?;
    append_copies(alloc, &mut made, &items[at + 1..])?;
    Ok(made)
}

/// Copies of the elements, and then of others.
pub(crate) fn joined(
    alloc: Global,
    items: &Shared<Tree>,
    more: &Shared<Tree>,
) -> Result<List<Tree>, NoMemory>
    ensures { IfOk result (λ made. made ≡ items.now ++ more.now) }
{
    let mut made = List::new(alloc);
    append_copies(alloc, &mut made, items.as_slice())?;
    append_copies(alloc, &mut made, more.as_slice())?;
    Ok(made)
}

/// Copies of the elements, and then another one.
pub(crate) fn with_appended(
    alloc: Global,
    items: &Shared<Tree>,
    new: Tree,
) -> Result<List<Tree>, NoMemory>
    ensures { IfOk result (λ made. made ≡ items.now ++ new ∷ []) }
{
    let mut made = List::new(alloc);
    append_copies(alloc, &mut made, items.as_slice())?;
    made.push(new)?;
    Ok(made)
}

fn append_copies(alloc: Global, made: &mut List<Tree>, items: &[Tree]) -> Result<(), NoMemory>
    ensures { OnOk result (made.new ≡ made.old ++ items.now) }
{
    for item in items {
        made.push(copy(alloc, item)?)?;
    }
    Ok(())
}
