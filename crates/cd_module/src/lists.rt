ghost use Rattle.cd_text.specs.Gives.{Gives};
ghost use Rattle.cd_module.specs.Settings.{list_of, each};

use crate::fault::{LoadFault, LoadKind};
use crate::settings::Settings;
use cd_text::List;
use cd_tree::{Place, Shared, Tree};
use std::alloc::Global;

impl<T: Settings> Settings for List<T> {
    ghost reader = { list_of T.reader };

    fn read(alloc: Global, tree: &Tree, at: &Place<'_>) -> Result<List<T>, LoadFault> {
        match tree {
            Tree::Items(items) => read_each(alloc, items, at),
            _ => Err(LoadFault::at(alloc, LoadKind::WrongKind, at)),
        }
    }
}

fn read_each<T: Settings>(
    alloc: Global,
    items: &Shared<Tree>,
    at: &Place<'_>,
) -> Result<List<T>, LoadFault>
    ensures { Gives LoadFault.NoMemory result (each T.reader 0 items.now at.now) }
{
    let mut found = List::new(alloc);
    for (place, item) in items.as_slice().iter().enumerate() {
        let here = at.element(place);
        found.push(T::read(alloc, item, &here)?)?;
    }
    Ok(found)
}
