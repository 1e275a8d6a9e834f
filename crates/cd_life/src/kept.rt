ghost use Rattle.std.specs.Prelude.{◌≡◌, ◌≢◌, ◌<◌, ◌≤◌, ◌+◌, ◌++◌, ◌∷◌, [], ℕ, Some};
ghost use Rattle.std.specs.Vec.{vec_len, vec_capacity};
ghost use Rattle.cd_tree.specs.declared.tree.Tree.{Tree};
ghost use Rattle.cd_life.specs.Changes.{IsPlaceOf, tree_at};
ghost use Rattle.cd_life.specs.Removals.{HandsBack};

use crate::board::Kept;
use crate::removed::Removed;
use cd_module_set::{Loaded, ModuleSet};
use std::sync::Arc;

// The place of the first one with the serial.
pub(crate) fn place_of<M: ModuleSet>(kept: &[Kept<M>], serial: u32) -> Option<usize>
    ensures { IsPlaceOf kept.now serial result }
{
    for (place, one) in kept.iter().enumerate() {
        if one.serial == serial {
            return Some(place);
        }
    }
    None
}

// Keeps one more, where there is room.
pub(crate) fn keep<M: ModuleSet>(kept: &mut Vec<Kept<M>>, serial: u32, loaded: Arc<Loaded<M>>)
    ensures items { vec_len kept.old < vec_capacity kept.old → kept.new.items ≡ kept.old.items ++ record { serial = serial; loaded = loaded } ∷ [] }
    ensures len { vec_len kept.new ≤ vec_len kept.old + 1 }
    ensures capacity { vec_capacity kept.new ≡ vec_capacity kept.old }
{
    if kept.len() < kept.capacity() {
        kept.push_reserved(Kept { serial, loaded });
    }
}

// Takes the first one with the serial out.
pub(crate) fn take_out<M: ModuleSet>(kept: &mut Vec<Kept<M>>, serial: u32) -> Option<Removed<M>>
    ensures removed { HandsBack serial kept.old.items kept.new.items result }
    ensures others { (n : ℕ) → n ≢ serial → tree_at kept.new.items n ≡ tree_at kept.old.items n }
    ensures len { vec_len kept.new ≤ vec_len kept.old }
    ensures gone { (tree : Tree) → tree_at kept.old.items serial ≡ Some tree → vec_len kept.new + 1 ≡ vec_len kept.old }
    ensures capacity { vec_capacity kept.new ≡ vec_capacity kept.old }
{
    match place_of(kept.as_slice(), serial) {
        Some(place) => {
            let Kept { serial: _, loaded } = kept.remove(place);
            Some(Removed { loaded })
        }
        None => None,
    }
}
