//! What filling means in the words of the rule, and its limit as a number, as calls that do nothing.
ghost use Rattle.std.specs.Prelude.{◌≡◌, ℕ, List, [], ◌∷◌, ◌++◌, false, All};
ghost use Rattle.cd_fill.specs.declared.form.Form.{Form};
ghost use Rattle.cd_fill.specs.declared.limits.TheConstants.{MAX_FILLED_BYTES};
ghost use Rattle.cd_fill.specs.declared.scene.Scene.{Scene};
ghost use Rattle.cd_fill.specs.Filling.{is_brace, close_brace, written, named, filled_as};

/// The limit of a filled text, which the contracts cite by name, as a number.
pub fn filled_bytes_are()
    ensures { MAX_FILLED_BYTES ≡ 8388608 }
{}

/// In each form a placeholder is replaced wherever it stands, and what stands on its two sides is filled by itself: so what
/// is filled in makes no placeholder, neither in itself nor with what stands around it, and no escape that is written goes on
/// in it. A text without `}` is treated as what is written in that form, and so is what a `}` ends that no brace stands
/// before. Each text is one of these three kinds, so no other filling obeys this.
pub fn placeholders_are_replaced()
    ensures replaced { (form : Form) (scene : Scene) (before name after : List ℕ)
        → All (λ byte. is_brace byte ≡ false) name
        → filled_as form scene (before ++ 123 ∷ (name ++ 125 ∷ after))
        ≡ filled_as form scene before ++ named form scene name ++ filled_as form scene after }
    ensures unclosed { (form : Form) (scene : Scene) (text : List ℕ)
        → All (λ byte. close_brace byte ≡ false) text → filled_as form scene text ≡ written form text }
    ensures unopened { (form : Form) (scene : Scene) (front rest : List ℕ)
        → All (λ byte. is_brace byte ≡ false) front
        → filled_as form scene (front ++ 125 ∷ rest)
        ≡ written form (front ++ 125 ∷ []) ++ filled_as form scene rest }
{}
