//! All indexes of a chain, by number.
ghost use Rattle.std.specs.Prelude.{List, OnOk};
ghost use Rattle.cd_chain.specs.declared.place.Place.{Place as PlaceOf};
ghost use Rattle.cd_chain.specs.Indexes.{AreSound, IsSound};

use crate::index::Index;
use cd_text::NoMemory;
use std::alloc::Global;

/// Takes the next number for an index, which has no routes yet.
#[tactic(auto, using(crate::proofs::Indexes::pushed_sound, crate::proofs::Indexes::none_sound))]
pub(crate) fn reserve(alloc: Global, indexes: &mut Vec<Index>) -> Result<usize, NoMemory>
    ensures { OnOk result ((places : List PlaceOf) → AreSound places indexes.old.items → AreSound places indexes.new.items) }
{
    let number = indexes.len();
    let none = Index::none(alloc)?;
    indexes.push(none)?;
    Ok(number)
}

/// Puts an index in the place of a number.
#[tactic(auto, using(crate::proofs::Indexes::put_sound))]
pub(crate) fn put_index(indexes: &mut Vec<Index>, number: usize, index: Index)
    ensures { (places : List PlaceOf) → AreSound places indexes.old.items → IsSound places index → AreSound places indexes.new.items }
{
    if number < indexes.len() {
        indexes[number] = index;
    }
}
