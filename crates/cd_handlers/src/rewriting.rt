//! What `rewrite` does: its texts are filled, and then the steps are done on a copy of what is asked for. So the scene is as it
//! was found where either can't be done.
ghost use Rattle.std.specs.Prelude.{◌≡◌, IfOk, Option, None, unwrap_or, map};
ghost use Rattle.std.specs.Char.{to_ascii_uppercase};
ghost use Rattle.cd_text.specs.Gives.{Gives};
ghost use Rattle.cd_wire.specs.Targets.{query_of};
ghost use Rattle.cd_fill.specs.Filling.{fill_as};
ghost use Rattle.cd_handlers.specs.declared.fault.HandlerFault.{HandlerFault};
ghost use Rattle.cd_handlers.specs.Done.{effect_of, left_by};
ghost use Rattle.cd_handlers.specs.Filling.{or_unable};
ghost use Rattle.cd_handlers.specs.Rewrite.{method_said, method_filled, path_filled, query_said, query_filled, target_filled, prefix_filled, suffix_filled, substring_filled, each_filled, substrings_filled, rewrite_filled, line_rewritten, asking, rewrite_effect};

use crate::failing::unable;
use crate::fault::HandlerFault;
use crate::filling::text_filled;
use crate::outcome::Done;
use crate::rewrite::{MethodText, Rewrite, Substring, is_token};
use cd_fill::{Form, RequestLine, Scene, fill_as, with_slash_before};
use cd_rewrite::{QueryChange, Replacement, Rewriting, Target, rewritten};
use cd_text::{List, NoMemory, Octets, Text};
use cd_wire::{before_question_mark, query_of};
use std::alloc::Global;
use std::mem::replace;

fn upper(bytes: &mut [u8])
    ensures { bytes.new ≡ map to_ascii_uppercase bytes.old }
{
    bytes.make_ascii_uppercase();
}

// The method that the bytes say.
fn method_said(method: Vec<u8>) -> Result<Option<Text>, HandlerFault>
    ensures { result ≡ method_said method.items }
{
    if !is_token(method.as_slice()) {
        return Err(HandlerFault::Unable);
    }
    match String::from_utf8(method) {
        Ok(method) => Ok(Some(Text::from_string(method))),
        Err(_) => unreachable!(),
    }
}

#[tactic(auto, unfolding(crate::specs::Rewrite::method_filled))]
fn method_filled(
    alloc: Global,
    method: &Option<MethodText>,
    scene: &Scene<'_>,
) -> Result<Option<Text>, HandlerFault>
    ensures { Gives HandlerFault.NoMemory result (method_filled scene.now method.now) }
{
    match method {
        Some(method) => {
            let mut bytes = text_filled(alloc, &method.text, scene)?.into_vec();
            upper(bytes.as_mut_slice());
            method_said(bytes)
        }
        None => Ok(None),
    }
}

fn filled_as(
    alloc: Global,
    form: Form,
    text: &[u8],
    scene: &Scene<'_>,
) -> Result<Octets, HandlerFault>
    ensures { Gives HandlerFault.NoMemory result (or_unable (fill_as form scene.now text.now)) }
{
    let filled = fill_as(alloc, form, text, scene)?;
    Ok(filled)
}

#[tactic(auto, unfolding(crate::specs::Rewrite::path_filled))]
fn path_filled(
    alloc: Global,
    text: &[u8],
    scene: &Scene<'_>,
) -> Result<Option<Octets>, HandlerFault>
    ensures { Gives HandlerFault.NoMemory result (path_filled scene.now text.now) }
{
    if text.is_empty() {
        return Ok(None);
    }
    let path = filled_as(alloc, Form::Path, text, scene)?;
    Ok(Some(with_slash_before(alloc, path)?))
}

fn query_said(query: Octets) -> Option<Octets>
    ensures { result ≡ query_said query }
{
    if query.is_empty() { None } else { Some(query) }
}

#[tactic(auto, unfolding(crate::specs::Rewrite::query_filled))]
fn query_filled(alloc: Global, uri: &[u8], scene: &Scene<'_>) -> Result<QueryChange, HandlerFault>
    ensures { Gives HandlerFault.NoMemory result (query_filled scene.now (query_of uri.now)) }
{
    match query_of(uri) {
        Some(text) => {
            let query = filled_as(alloc, Form::Query, text, scene)?;
            Ok(QueryChange::Becomes(query_said(query)))
        }
        None => Ok(QueryChange::Stays),
    }
}

#[tactic(auto, unfolding(crate::specs::Rewrite::target_filled))]
fn target_filled(
    alloc: Global,
    uri: &Option<Text>,
    scene: &Scene<'_>,
) -> Result<Target, HandlerFault>
    ensures { Gives HandlerFault.NoMemory result (target_filled scene.now uri.now) }
{
    match uri {
        Some(uri) => {
            let uri = uri.as_str().as_bytes();
            let path = path_filled(alloc, before_question_mark(uri), scene)?;
            let query = query_filled(alloc, uri, scene)?;
            Ok(Target { path, query })
        }
        None => Ok(Target {
            path: None,
            query: QueryChange::Stays,
        }),
    }
}

#[tactic(auto, unfolding(crate::specs::Rewrite::prefix_filled))]
fn prefix_filled(
    alloc: Global,
    prefix: &Option<Text>,
    scene: &Scene<'_>,
) -> Result<Option<Octets>, HandlerFault>
    ensures { Gives HandlerFault.NoMemory result (prefix_filled scene.now prefix.now) }
{
    match prefix {
        Some(text) => {
            let filled = text_filled(alloc, text, scene)?;
            Ok(Some(with_slash_before(alloc, filled)?))
        }
        None => Ok(None),
    }
}

#[tactic(auto, unfolding(crate::specs::Rewrite::suffix_filled))]
fn suffix_filled(
    alloc: Global,
    suffix: &Option<Text>,
    scene: &Scene<'_>,
) -> Result<Option<Octets>, HandlerFault>
    ensures { Gives HandlerFault.NoMemory result (suffix_filled scene.now suffix.now) }
{
    match suffix {
        Some(text) => Ok(Some(text_filled(alloc, text, scene)?)),
        None => Ok(None),
    }
}

#[tactic(auto, unfolding(crate::specs::Rewrite::substring_filled))]
fn substring_filled(
    alloc: Global,
    substring: &Substring,
    scene: &Scene<'_>,
) -> Result<Replacement, HandlerFault>
    ensures { Gives HandlerFault.NoMemory result (substring_filled scene.now substring.now) }
{
    let find = text_filled(alloc, &substring.find, scene)?;
    let replace = text_filled(alloc, &substring.replace, scene)?;
    let limit = substring.limit;
    Ok(Replacement {
        find,
        replace,
        limit,
    })
}

#[tactic(auto, unfolding(crate::specs::Rewrite::each_filled))]
fn each_filled(
    alloc: Global,
    substrings: &List<Substring>,
    scene: &Scene<'_>,
) -> Result<List<Replacement>, HandlerFault>
    ensures { Gives HandlerFault.NoMemory result (each_filled scene.now substrings.now) }
{
    let mut filled = List::new(alloc);
    for substring in substrings.as_slice() {
        filled.push(substring_filled(alloc, substring, scene)?)?;
    }
    Ok(filled)
}

#[tactic(auto, unfolding(crate::specs::Rewrite::substrings_filled))]
fn substrings_filled(
    alloc: Global,
    substrings: &Option<List<Substring>>,
    scene: &Scene<'_>,
) -> Result<Option<List<Replacement>>, HandlerFault>
    ensures { Gives HandlerFault.NoMemory result (substrings_filled scene.now substrings.now) }
{
    match substrings {
        Some(substrings) => Ok(Some(each_filled(alloc, substrings, scene)?)),
        None => Ok(None),
    }
}

// All texts, filled in the scene that the handler found.
#[tactic(auto, unfolding(crate::specs::Rewrite::rewrite_filled))]
fn rewrite_filled(
    alloc: Global,
    settings: &Rewrite,
    scene: &Scene<'_>,
) -> Result<Rewriting, HandlerFault>
    ensures { Gives HandlerFault.NoMemory result (rewrite_filled settings.now scene.now) }
{
    let method = method_filled(alloc, &settings.method, scene)?;
    let target = target_filled(alloc, &settings.uri, scene)?;
    let prefix = prefix_filled(alloc, &settings.strip_path_prefix, scene)?;
    let suffix = suffix_filled(alloc, &settings.strip_path_suffix, scene)?;
    let replacements = substrings_filled(alloc, &settings.uri_substring, scene)?;
    Ok(Rewriting {
        method,
        target,
        prefix,
        suffix,
        replacements,
    })
}

// What is asked for from here on.
#[tactic(auto, unfolding(crate::specs::Rewrite::line_rewritten))]
fn line_rewritten<'r>(
    alloc: Global,
    settings: &Rewrite,
    scene: &Scene<'r>,
) -> Result<RequestLine<'r>, HandlerFault>
    ensures { Gives HandlerFault.NoMemory result (line_rewritten settings.now scene.now) }
{
    let filled = rewrite_filled(alloc, settings, scene)?;
    let line = rewritten(alloc, filled, &scene.current)?;
    Ok(line)
}

// What was asked for at first is kept.
fn first_line<'r>(original: Option<RequestLine<'r>>, current: RequestLine<'r>) -> RequestLine<'r>
    ensures { result ≡ unwrap_or original.entry current.entry }
{
    match original {
        Some(line) => line,
        None => current,
    }
}

// What is asked for from here on.
fn ask<'r>(line: RequestLine<'r>, scene: &mut Scene<'r>)
    ensures { scene.new ≡ asking line.entry scene.old }
{
    let original = replace(&mut scene.original, None);
    let current = replace(&mut scene.current, line);
    scene.original = Some(first_line(original, current));
}

/// Rewrites what is asked for.
#[tactic(auto, unfolding(crate::specs::Rewrite::rewrite_effect))]
pub(crate) fn rewrite<'a, 'r>(
    alloc: Global,
    settings: &Rewrite,
    scene: &mut Scene<'r>,
) -> Result<Done<'a>, NoMemory>
    ensures effect { IfOk result (λ done. effect_of done scene.new ≡ rewrite_effect settings.now scene.old) }
    ensures changes { IfOk result (λ done. left_by done ≡ None) }
{
    match line_rewritten(alloc, settings, scene) {
        Ok(line) => {
            ask(line, scene);
            Ok(Done::Goes)
        }
        Err(fault) => unable(alloc, fault),
    }
}
