ghost use Rattle.std.specs.Prelude.{◌≡◌, ℕ, List, Ok, true};
ghost use Rattle.cd_module.specs.Bare.{bare, SeesNoIds};
ghost use Rattle.cd_module.specs.Ids.{id_of, is_id, dotted};
ghost use Rattle.cd_module.specs.declared.id.ModuleId.{ModuleId};
ghost use Rattle.cd_module.specs.Recursion.{Inward, recursive};
ghost use Rattle.cd_module.specs.Settings.{Reader, list_of, object_of, object_with_nulls};
ghost use Rattle.cd_module.specs.declared.limits.TheConstants.{MAX_MODULES, MAX_ADDRESSES, MAX_SERVERS, MAX_ERROR_SUBROUTES, MAX_EXPANDED_ROUTES};

use crate::id::ModuleId;
use crate::named::Named;
use crate::settings::Settings;
use cd_text::Text;
use cd_tree::{Path, Tree};

/// Trees that differ in ids alone are read alike, by each reader that sees none: with the same settings, or the same first
/// fault.
pub fn ids_are_not_seen<T: Settings>(tree: &Tree, other: &Tree, at: &Path)
    ensures { SeesNoIds T.reader → bare tree.now ≡ bare other.now → T.reader tree.now at.now ≡ T.reader other.now at.now }
{
    let _ = tree;
    let _ = other;
    let _ = at;
}

/// A list sees no ids where its elements see none.
pub fn lists_see_no_ids<T: Settings>(tree: &Tree, at: &Path)
    ensures { SeesNoIds T.reader → list_of T.reader (bare tree.now) at.now ≡ list_of T.reader tree.now at.now }
{
    let _ = tree;
    let _ = at;
}

/// An object by name sees no ids where its members see none, whether null has a meaning there or not.
pub fn objects_see_no_ids<T: Named>(tree: &Tree, at: &Path)
    ensures settings { ((name : List ℕ) → SeesNoIds (T.named name)) → object_of T.named (bare tree.now) at.now ≡ object_of T.named tree.now at.now }
    ensures with_nulls { ((name : List ℕ) → SeesNoIds (T.named name)) → object_with_nulls T.named (bare tree.now) at.now ≡ object_with_nulls T.named tree.now at.now }
{
    let _ = tree;
    let _ = at;
}

/// A reader that reads values inside by itself sees no ids where its body sees none, given that what reads inside sees none.
pub fn recursions_see_no_ids<T: Drop>(tree: &Tree, at: &Path)
    ensures { (body : Reader T → Reader T) → Inward body → ((inner : Reader T) → SeesNoIds inner → SeesNoIds (body inner))
        → recursive body (bare tree.now) at.now ≡ recursive body tree.now at.now }
{
    let _ = tree;
    let _ = at;
}

/// The limits of a configuration, as numbers.
pub fn limits_of_configurations()
    ensures modules { MAX_MODULES ≡ 65536 }
    ensures addresses { MAX_ADDRESSES ≡ 1024 }
    ensures servers { MAX_SERVERS ≡ 256 }
    ensures error_subroutes { MAX_ERROR_SUBROUTES ≡ 8 }
    ensures expanded_routes { MAX_EXPANDED_ROUTES ≡ 65536 }
{}

/// What a text reads as is an id, and the text of an id reads as that id. A text that reads as an id is its text.
pub fn ids_read_back(id: &ModuleId, text: &Text)
    ensures id { is_id id.now ≡ true → id_of (dotted id.now) ≡ Ok id.now }
    ensures read { (found : ModuleId) → id_of text.now ≡ Ok found → is_id found ≡ true }
    ensures text { (found : ModuleId) → id_of text.now ≡ Ok found → dotted found ≡ text.now }
{
    let _ = id;
    let _ = text;
}
