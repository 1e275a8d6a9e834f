//! Texts with their placeholders replaced.
ghost use Rattle.std.specs.Prelude.{◌≡◌, ◌++◌, ◌<◌, ◌+◌, MatchOption, OnOk, true, false, take, drop, length};
ghost use Rattle.std.specs.List.{before_last, after_last, list_any};
ghost use Rattle.cd_text.specs.Gives.{Gives};
ghost use Rattle.cd_fill.specs.declared.fault.FillFault.{FillFault};
ghost use Rattle.cd_fill.specs.Filling.{open_brace, closed_piece, bounded, fill_as, fill};

use crate::treating::{put_named, put_written};
use crate::{FillFault, Form, MAX_FILLED_BYTES, Scene};
use cd_text::{NoMemory, Octets, Text, split_at_byte};
use std::alloc::Global;

fn last_open(piece: &[u8]) -> Option<usize>
    ensures { MatchOption result (list_any open_brace piece.now ≡ false)
        (λ at. (at < length piece.now) × (list_any open_brace piece.now ≡ true)
        × (take at piece.now ≡ before_last open_brace piece.now)
        × (drop (at + 1) piece.now ≡ after_last open_brace piece.now)) }
{
    let mut end = piece.len();
    while end > 0 {
        end -= 1;
        if piece[end] == b'{' {
            return Some(end);
        }
    }
    None
}

#[tactic(auto, using(crate::proofs::Closings::unopened_written), unfolding(crate::specs::Filling::closed_piece))]
fn put_closed(
    alloc: Global,
    out: &mut Octets,
    form: Form,
    scene: &Scene<'_>,
    piece: &[u8],
) -> Result<(), NoMemory>
    ensures { OnOk result (out.new ≡ out.old ++ closed_piece form scene.now piece.now) }
{
    match last_open(piece) {
        Some(at) => {
            put_written(out, form, &piece[..at])?;
            put_named(alloc, out, form, scene, &piece[at + 1..])
        }
        None => {
            put_written(out, form, piece)?;
            out.push(b'}')
        }
    }
}

fn bounded(filled: Octets) -> Result<Octets, FillFault>
    ensures { result ≡ bounded filled }
{
    if filled.len() > MAX_FILLED_BYTES {
        return Err(FillFault::TooLong);
    }
    Ok(filled)
}

/// The bytes of a text filled in that form. `TooLong` exactly where there are more than `MAX_FILLED_BYTES`.
pub fn fill_as(
    alloc: Global,
    form: Form,
    text: &[u8],
    scene: &Scene<'_>,
) -> Result<Octets, FillFault>
    ensures { Gives FillFault.NoMemory result (fill_as form scene.now text.now) }
{
    let mut out = Octets::new(alloc);
    let mut rest = text;
    // The length is looked at behind each placeholder, so what is too long does not grow on.
    while let Some((piece, behind)) = split_at_byte(rest, b'}') {
        put_closed(alloc, &mut out, form, scene, piece)?;
        rest = behind;
        if out.len() > MAX_FILLED_BYTES {
            return Err(FillFault::TooLong);
        }
    }
    put_written(&mut out, form, rest)?;
    bounded(out)
}

/// The text with its placeholders replaced. `TooLong` exactly where that has more than `MAX_FILLED_BYTES`.
pub fn fill(alloc: Global, text: &Text, scene: &Scene<'_>) -> Result<Octets, FillFault>
    ensures { Gives FillFault.NoMemory result (fill scene.now text.now) }
{
    fill_as(alloc, Form::Plain, text.as_str().as_bytes(), scene)
}
