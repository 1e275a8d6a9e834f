//! What a pass in its turn knows, each as a call that does nothing.
ghost use Rattle.std.specs.Prelude.{◌≡◌, ◌++◌, ◌∷◌, [], ℕ, List, Some, slice_get, IsTrue, true};
ghost use Rattle.std.specs.List.{list_all};
ghost use Rattle.cd_legal.specs.declared.entry.Entry.{Entry};
ghost use Rattle.cd_legal.specs.declared.entry.Signed.{Signed};
ghost use Rattle.cd_legal.specs.Entry.{signed};
ghost use Rattle.cd_legal.specs.Legal.{state_at};
ghost use Rattle.cd_legal.specs.Signing.{IsHistory};
ghost use Rattle.cd_legal.specs.Whole.{nothing_left};
ghost use Rattle.cd_gate.specs.declared.view.View.{View};
ghost use Rattle.cd_gate.specs.Cores.{core_view, noted_all, Notes};
ghost use Rattle.cd_gate.specs.Counts.{is_noted};
ghost use Rattle.cd_gate.specs.Knowing.{Knows, is_calm};
ghost use Rattle.cd_gate.specs.Steps.{may_note, with_turn, noted};
ghost use Rattle.cd_gate.specs.Tables.{Found, FoundInTurn, Finds};

use cd_legal::Stands;

/// A pass that takes the turn knows the history, and so it does after each entry that it may note.
pub fn a_turn_knows_the_history<T: Stands>()
    ensures found { (o b : T) (v : View T) (log : List Signed) → Finds T.stands o v log b → Knows (with_turn v log) }
    ensures noted { (v : View T) (log : List Signed) (e : Entry) → Knows v → FoundInTurn v log → IsTrue (may_note v e) →
        IsHistory (log ++ signed v.number e ∷ []) → Knows (noted v log e) }
{}

/// An entry that makes or starts something leaves the duties of its pass, and nothing to be stopped or cleaned.
pub fn calm_entries_leave_the_duties<T: Stands>()
    ensures { (v : View T) (log : List Signed) (e : Entry) → FoundInTurn v log → IsHistory (log ++ signed v.number e ∷ []) →
        IsTrue (is_calm e) → IsTrue (nothing_left (state_at v.seen)) →
        ((noted v log e).duties ≡ v.duties) × (nothing_left (state_at (noted v log e).seen) ≡ true) }
{}

/// Without Begin and Finish the notes of a turn follow one another.
pub fn notes_follow_one_another<T: Stands>()
    ensures { (v w : View T) (entries : List Entry) → IsTrue (list_all is_noted entries) → Notes v entries w → core_view w ≡ noted_all (core_view v) entries }
{}

/// Until its next step the draft of a pass stays as the pass has seen it, whatever others do.
pub fn a_pass_finds_its_draft<T: Stands>()
    ensures { (v : View T) (log : List Signed) (d : ℕ) → Found v log → v.draft ≡ Some d →
        slice_get (state_at log).drafts d ≡ slice_get (state_at v.seen).drafts d }
{}
