//! How a form treats what is written in a text, and what its placeholders stand for.
ghost use Rattle.std.specs.Prelude.{◌≡◌, ◌++◌, OnOk};
ghost use Rattle.percent_encoding.specs.Percent.{percent_decode};
ghost use Rattle.form_urlencoded.specs.Form.{byte_serialize};
ghost use Rattle.cd_fill.specs.Filling.{braced, written, placeholder, encoded_placeholder, named};

use crate::values::{lent_value, put_value};
use crate::{Form, Scene};
use cd_text::{NoMemory, Octets};
use form_urlencoded::byte_serialize;
use percent_encoding::percent_decode;
use std::alloc::Global;

fn put_decoded(out: &mut Octets, text: &[u8]) -> Result<(), NoMemory>
    ensures { OnOk result (out.new ≡ out.old ++ percent_decode text.now) }
{
    for byte in percent_decode(text) {
        out.push(byte)?;
    }
    Ok(())
}

/// Writes what stands between placeholders.
#[tactic(auto, unfolding(crate::specs::Filling::written))]
pub(crate) fn put_written(out: &mut Octets, form: Form, text: &[u8]) -> Result<(), NoMemory>
    ensures { OnOk result (out.new ≡ out.old ++ written form text.now) }
{
    match form {
        Form::Plain | Form::Query => out.append(text),
        Form::Path => put_decoded(out, text),
    }
}

fn put_braced(out: &mut Octets, name: &[u8]) -> Result<(), NoMemory>
    ensures { OnOk result (out.new ≡ out.old ++ braced name.now) }
{
    out.push(b'{')?;
    out.append(name)?;
    out.push(b'}')
}

#[tactic(auto, unfolding(crate::specs::Filling::placeholder))]
fn put_placeholder(
    alloc: Global,
    out: &mut Octets,
    scene: &Scene<'_>,
    name: &[u8],
) -> Result<(), NoMemory>
    ensures { OnOk result (out.new ≡ out.old ++ placeholder scene.now name.now) }
{
    if put_value(alloc, out, scene, name)? {
        Ok(())
    } else {
        put_braced(out, name)
    }
}

fn put_encoded(out: &mut Octets, value: &[u8]) -> Result<(), NoMemory>
    ensures { OnOk result (out.new ≡ out.old ++ byte_serialize value.now) }
{
    for piece in byte_serialize(value) {
        out.append(piece.as_bytes())?;
    }
    Ok(())
}

#[tactic(auto, unfolding(crate::specs::Filling::encoded_placeholder))]
fn put_encoded_placeholder(
    alloc: Global,
    out: &mut Octets,
    scene: &Scene<'_>,
    name: &[u8],
) -> Result<(), NoMemory>
    ensures { OnOk result (out.new ≡ out.old ++ encoded_placeholder scene.now name.now) }
{
    if let Some(value) = lent_value(scene, name) {
        return put_encoded(out, value);
    }
    // What is joined, decoded or a number is written by itself first.
    let mut value = Octets::new(alloc);
    if put_value(alloc, &mut value, scene, name)? {
        put_encoded(out, value.as_slice())
    } else {
        put_braced(out, name)
    }
}

/// Writes what stands in place of a placeholder.
#[tactic(auto, unfolding(crate::specs::Filling::named))]
pub(crate) fn put_named(
    alloc: Global,
    out: &mut Octets,
    form: Form,
    scene: &Scene<'_>,
    name: &[u8],
) -> Result<(), NoMemory>
    ensures { OnOk result (out.new ≡ out.old ++ named form scene.now name.now) }
{
    match form {
        Form::Plain | Form::Path => put_placeholder(alloc, out, scene, name),
        Form::Query => {
            if name == "http.request.uri.query".as_bytes() {
                put_placeholder(alloc, out, scene, name)
            } else {
                put_encoded_placeholder(alloc, out, scene, name)
            }
        }
    }
}
