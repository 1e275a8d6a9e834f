//! Texts that stand for themselves are lent, and not copied.
ghost use Rattle.std.specs.Prelude.{◌≡◌, Ok, true};
ghost use Rattle.cd_text.specs.Gives.{Gives};
ghost use Rattle.cd_fill.specs.declared.fault.FillFault.{FillFault};
ghost use Rattle.cd_fill.specs.declared.scene.Scene.{Scene as SceneOf};
ghost use Rattle.cd_fill.specs.Filling.{fill};

use crate::filling::fill;
use crate::{FillFault, MAX_FILLED_BYTES, Scene};
use cd_text::{Text, split_at_byte};
use cd_wire::Lent;
use std::alloc::Global;

// Whether nothing closes a placeholder in the text, and it is not too long.
#[tactic(auto, using(crate::proofs::Itself::stands_for_itself))]
fn stands_for_itself(text: &[u8]) -> bool
    ensures { result ≡ true → (x : SceneOf) → fill x text.now ≡ Ok text.now }
{
    if text.len() > MAX_FILLED_BYTES {
        return false;
    }
    match split_at_byte(text, b'}') {
        Some(_) => false,
        None => true,
    }
}

/// The bytes of a text filled as it is, which the text lends where it stands for itself. `TooLong` exactly where they are more
/// than `MAX_FILLED_BYTES`.
pub fn fill_lent<'r>(
    alloc: Global,
    text: &'r Text,
    scene: &Scene<'_>,
) -> Result<Lent<'r, u8>, FillFault>
    ensures { Gives FillFault.NoMemory result (fill scene.now text.now) }
{
    let bytes = text.as_str().as_bytes();
    if stands_for_itself(bytes) {
        return Ok(Lent::shared(bytes));
    }
    let filled = fill(alloc, text, scene)?;
    Ok(Lent::octets(filled))
}
