//! What the names of placeholders stand for.
ghost use Rattle.std.specs.Prelude.{◌≡◌, ◌++◌, [], true, false, MatchOption, IfOk, OnOk, IfSome, Some, is_some, unwrap_or, decimal};
ghost use Rattle.std.specs.Option.{option_copied};
ghost use Rattle.std.specs.Str.{bytes_eq};
ghost use Rattle.cd_fill.specs.Values.{begins, behind, proto, kept_value, request_value, error_value, error_named, value};

use crate::host::host_without_port;
use crate::joining::put_header;
use crate::query::put_query;
use crate::variable::value_of_variable;
use crate::{Failure, Scene};
use cd_text::{NoMemory, Octets};
use cd_wire::reason_of;
use std::alloc::Global;

fn is(name: &[u8], word: &str) -> bool
    ensures { result ≡ bytes_eq name.now word.now }
{
    name == word.as_bytes()
}

// What follows the word, where the name begins with it.
fn after<'a>(name: &'a [u8], word: &str) -> Option<&'a [u8]>
    ensures { MatchOption result (begins name.now word.now ≡ false)
        (λ rest. (begins name.now word.now ≡ true) × (rest.now ≡ behind name.now word.now)) }
{
    name.strip_prefix(word.as_bytes())
}

fn proto(minor: u8) -> &'static [u8]
    ensures { result.now ≡ proto minor }
{
    if minor == 0 { b"HTTP/1.0" } else { b"HTTP/1.1" }
}

// `http.request.NAME` of what the scene has as it is.
#[tactic(auto, unfolding(crate::specs::Values::kept_value))]
fn kept_value<'a>(scene: &'a Scene<'_>, name: &[u8]) -> Option<&'a [u8]>
    ensures { option_copied result ≡ kept_value scene.now name.now }
{
    if is(name, "method") {
        Some(scene.current.method.as_slice())
    } else if is(name, "orig_method") {
        Some(scene.original_line().method.as_slice())
    } else if is(name, "host") {
        Some(host_without_port(scene.host.as_slice()))
    } else if is(name, "hostport") {
        Some(scene.host.as_slice())
    } else if is(name, "proto") {
        Some(proto(scene.minor))
    } else if is(name, "scheme") {
        Some(b"http")
    } else if is(name, "uri") {
        Some(scene.current.uri.as_slice())
    } else if is(name, "uri.path") {
        Some(scene.current.path.as_slice())
    } else if is(name, "uri.query") {
        Some(scene.current.query_or_empty())
    } else if is(name, "orig_uri") {
        Some(scene.original_line().uri.as_slice())
    } else if is(name, "orig_uri.path") {
        Some(scene.original_line().path.as_slice())
    } else if is(name, "orig_uri.query") {
        Some(scene.original_line().query_or_empty())
    } else {
        None
    }
}

// Writes what `http.request.NAME` stands for, and says whether the name is known.
#[tactic(auto, unfolding(crate::specs::Values::request_value))]
fn put_request_value(
    alloc: Global,
    out: &mut Octets,
    scene: &Scene<'_>,
    name: &[u8],
) -> Result<bool, NoMemory>
    ensures known { IfOk result (λ known. known ≡ is_some (request_value scene.now name.now)) }
    ensures text { OnOk result (out.new ≡ out.old ++ unwrap_or (request_value scene.now name.now) []) }
{
    if let Some(key) = after(name, "uri.query.") {
        put_query(alloc, out, key, scene.current.query_or_empty())?;
        return Ok(true);
    }
    if let Some(field) = after(name, "header.") {
        put_header(out, field, scene.fields.look())?;
        return Ok(true);
    }
    match kept_value(scene, name) {
        Some(value) => {
            out.append(value)?;
            Ok(true)
        }
        None => Ok(false),
    }
}

fn put_decimal(alloc: Global, out: &mut Octets, number: u16) -> Result<(), NoMemory>
    ensures { OnOk result (out.new ≡ out.old ++ decimal number) }
{
    let digits = format!(in alloc; "{number}")?;
    out.append(digits.as_bytes())
}

// The same of `http.error.NAME`, where there is an error.
#[tactic(auto, unfolding(crate::specs::Values::error_value))]
fn put_error_value(
    alloc: Global,
    out: &mut Octets,
    error: &Failure,
    name: &[u8],
) -> Result<bool, NoMemory>
    ensures known { IfOk result (λ known. known ≡ is_some (error_value error.now name.now)) }
    ensures text { OnOk result (out.new ≡ out.old ++ unwrap_or (error_value error.now name.now) []) }
{
    if is(name, "status_code") {
        put_decimal(alloc, out, error.status)?;
        Ok(true)
    } else if is(name, "status_text") {
        out.append(reason_of(error.status).as_bytes())?;
        Ok(true)
    } else if is(name, "message") {
        out.append(error.message.as_slice())?;
        Ok(true)
    } else {
        Ok(false)
    }
}

#[tactic(auto, unfolding(crate::specs::Values::error_named))]
fn put_error_named(
    alloc: Global,
    out: &mut Octets,
    error: &Option<Failure>,
    name: &[u8],
) -> Result<bool, NoMemory>
    ensures known { IfOk result (λ known. known ≡ is_some (error_named error.now name.now)) }
    ensures text { OnOk result (out.new ≡ out.old ++ unwrap_or (error_named error.now name.now) []) }
{
    match error {
        Some(error) => put_error_value(alloc, out, error, name),
        None => Ok(false),
    }
}

/// Writes what a name stands for, and says whether it is known. An unknown one writes nothing.
#[tactic(auto, unfolding(crate::specs::Values::value))]
pub(crate) fn put_value(
    alloc: Global,
    out: &mut Octets,
    scene: &Scene<'_>,
    name: &[u8],
) -> Result<bool, NoMemory>
    ensures known { IfOk result (λ known. known ≡ is_some (value scene.now name.now)) }
    ensures text { OnOk result (out.new ≡ out.old ++ unwrap_or (value scene.now name.now) []) }
{
    if let Some(name) = after(name, "http.request.") {
        put_request_value(alloc, out, scene, name)
    } else if let Some(name) = after(name, "http.vars.") {
        out.append(value_of_variable(scene.variables.as_slice(), name))?;
        Ok(true)
    } else if let Some(name) = after(name, "http.error.") {
        put_error_named(alloc, out, &scene.error, name)
    } else {
        Ok(false)
    }
}

#[tactic(auto, unfolding(crate::specs::Values::request_value))]
fn lent_request_value<'a>(scene: &'a Scene<'_>, name: &[u8]) -> Option<&'a [u8]>
    ensures { IfSome result (λ lent. request_value scene.now name.now ≡ Some lent.now) }
{
    if after(name, "uri.query.").is_some() || after(name, "header.").is_some() {
        return None;
    }
    kept_value(scene, name)
}

/// What a name stands for, if the scene has that as it is: then nothing has to be written to look at it.
#[tactic(auto, unfolding(crate::specs::Values::value))]
pub(crate) fn lent_value<'a>(scene: &'a Scene<'_>, name: &[u8]) -> Option<&'a [u8]>
    ensures { IfSome result (λ lent. value scene.now name.now ≡ Some lent.now) }
{
    if let Some(name) = after(name, "http.request.") {
        lent_request_value(scene, name)
    } else if let Some(name) = after(name, "http.vars.") {
        Some(value_of_variable(scene.variables.as_slice(), name))
    } else {
        None
    }
}
