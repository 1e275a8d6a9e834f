//! What the definitions mean beyond what a call says.
ghost use Rattle.std.specs.Prelude.{◌≡◌, ℕ, List, map, IsTrue, IsUtf8, All};
ghost use Rattle.cd_caddyfile.specs.Shorthands.{spelled};
ghost use Rattle.cd_caddyfile.specs.declared.word.Word.{Word};
ghost use Rattle.std.specs.List.{list_all};
ghost use Rattle.cd_caddyfile.specs.Words.{word, words};
ghost use Rattle.cd_caddyfile.specs.Writing.{in_quotes, has_no_backslash};
ghost use Rattle.cd_caddyfile.specs.declared.word.Mark.TheVariants.{Quoted};

/// Texts without `\` that are written in quotes are read back.
pub fn quoted_words_read_back()
    ensures { (texts : List (List ℕ)) → IsTrue (list_all has_no_backslash texts) → words (in_quotes texts) ≡ map (λ text. word text Quoted) texts }
{}

/// The words of a text are texts, and so is a text with its shorthands spelled out: both are cut at ASCII bytes.
pub fn words_of_texts_are_texts()
    ensures words { (line : List ℕ) → IsUtf8 line → All (λ (w : Word). IsUtf8 w.text) (words line) }
    ensures spelled { (text : List ℕ) → IsUtf8 text → IsUtf8 (spelled text) }
{}
