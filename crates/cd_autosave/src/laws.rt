//! What follows for saves one after another, as a call that does nothing.
ghost use Rattle.std.specs.Prelude.{List, ℕ, Option, ◌∷◌, ◌≤◌, ◌^◌, All};
ghost use Rattle.cd_autosave.specs.declared.slots.Slots.{Slots as SlotsOf};
ghost use Rattle.cd_tree.specs.declared.tree.Tree.{Tree};
ghost use Rattle.cd_autosave.specs.Image.{Saved, recovered};
ghost use Rattle.cd_autosave.specs.Disk.{Throughout};
ghost use Rattle.cd_autosave.specs.Saving.{held_of};
ghost use Rattle.cd_autosave.specs.Opening.{IsOpened, IsTreeOf, IsTreeText};
ghost use Rattle.cd_autosave.specs.Saves.{Attempt, IsBegun, IsSave, IsUndamaged, Saves, Survives};

use crate::Disk;

/// A disk that tells its bytes is opened, and saves follow one another. At each moment of the last one, whichever that is, what is
/// recovered from each image that a crash may leave is the record found at opening or that of a save that was begun, and its
/// number is at least that of each save that had answered `All` (`survives`). So it is between two saves.
///
/// The image isn't damaged where the number found is at most 2^62 and each text is that of a tree. Opening it, after the crash,
/// gives the tree of the record that is recovered (`resumed`).
pub fn a_crash_leaves_what_was_saved<D: Disk>()
    ensures survives { (first before now : SlotsOf D) (earlier : List Attempt) (last : Attempt)
        → IsBegun D.seen D.left_now first
        → Saves (IsSave D.seen D.left_now D.clock D.left_at) earlier first before
        → IsSave D.seen D.left_now D.clock D.left_at last before now
        → Throughout D.clock D.left_at before.disk now.disk (λ image. Survives (held_of D.seen first) (last ∷ earlier) earlier (recovered image)) }
    ensures between { (first now : SlotsOf D) (earlier : List Attempt)
        → IsBegun D.seen D.left_now first
        → Saves (IsSave D.seen D.left_now D.clock D.left_at) earlier first now
        → (image : List ℕ) → D.left_now now.disk image → Survives (held_of D.seen first) earlier earlier (recovered image) }
    ensures undamaged { (first before now : SlotsOf D) (earlier : List Attempt) (last : Attempt)
        → IsBegun D.seen D.left_now first
        → Saves (IsSave D.seen D.left_now D.clock D.left_at) earlier first before
        → IsSave D.seen D.left_now D.clock D.left_at last before now
        → first.found ≤ 2 ^ 62
        → All (λ attempt. IsTreeText attempt.saved.text) (last ∷ earlier)
        → Throughout D.clock D.left_at before.disk now.disk IsUndamaged }
    ensures resumed { (first : Option Saved) (begun earlier : List Attempt) (image : List ℕ) (held : Option Saved) (number : ℕ) (tree : Option Tree)
        → Survives first begun earlier (recovered image)
        → IsOpened held number tree image
        → Survives first begun earlier held × IsTreeOf held tree }
{}
