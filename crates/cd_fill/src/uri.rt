//! The uri text of a target.
ghost use Rattle.std.specs.Prelude.{◌≡◌, IfOk};
ghost use Rattle.cd_fill.specs.Scene.{with_slash, uri_of};

use cd_text::{NoMemory, Octets};
use cd_wire::{Lent, has_scheme, local_part};
use std::alloc::Global;

/// The text, with a `/` in front where none stands.
pub fn with_slash(alloc: Global, text: &[u8]) -> Result<Octets, NoMemory>
    ensures { IfOk result (λ made. made ≡ with_slash text.now) }
{
    if text.starts_with(b"/") {
        return Octets::from_slice(alloc, text);
    }
    let mut made = Octets::new(alloc);
    made.push(b'/')?;
    made.append(text)?;
    Ok(made)
}

/// The same, of a text that is moved where it stays.
pub fn with_slash_before(alloc: Global, text: Octets) -> Result<Octets, NoMemory>
    ensures { IfOk result (λ made. made ≡ with_slash text) }
{
    if text.as_slice().starts_with(b"/") {
        return Ok(text);
    }
    with_slash(alloc, text.as_slice())
}

/// The uri text that a target has.
pub(crate) fn uri_of<'r>(alloc: Global, target: &'r [u8]) -> Result<Lent<'r, u8>, NoMemory>
    ensures { IfOk result (λ uri. uri ≡ uri_of target.now) }
{
    if has_scheme(target) {
        let uri = with_slash(alloc, local_part(target))?;
        Ok(Lent::octets(uri))
    } else {
        Ok(Lent::shared(target))
    }
}
