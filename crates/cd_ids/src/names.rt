//! Ids alone, without paths. Those that are texts share them with the tree.
ghost use Rattle.std.specs.Prelude.{IsTrue};
ghost use Rattle.std.specs.List.{IsDistinct};
ghost use Rattle.std.specs.Str.{bytes_eq};

use crate::fault::IdFault;
use crate::notes::Notes;
use cd_text::List;
use cd_tree::{Place, SharedText};
use std::alloc::Global;
use std::cmp::Ordering;

impl Notes for List<SharedText> {
    ghost use Rattle.cd_ids.specs.Noting.{note_name};

    ghost with = { note_name };

    fn note(&mut self, _: Global, id: SharedText, _: &Place<'_>) -> Result<(), IdFault> {
        self.push(id)?;
        Ok(())
    }
}

/// Whether no two of them are alike.
pub(crate) fn are_distinct(names: List<SharedText>) -> bool
    ensures { IsTrue result → IsDistinct bytes_eq names }
{
    let mut names = names.into_vec();
    names.sort_unstable_by(|one, other| one.as_str().cmp(other.as_str()));
    each_is_below_the_next(names.as_slice())
}

// Whether each is below the next, by their bytes, so that no two are alike.
fn each_is_below_the_next(names: &[SharedText]) -> bool
    ensures { IsTrue result → IsDistinct bytes_eq names.now }
{
    names.is_sorted_by(|one, other| one.as_str().cmp(other.as_str()) == Ordering::Less)
}
