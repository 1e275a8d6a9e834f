//! The steps by which what is asked for is rewritten.
ghost use Rattle.std.specs.Prelude.{◌≡◌, ◌-◌, IfOk, take, length, unwrap_or};
ghost use Rattle.std.specs.Str.{bytes_eq};
ghost use Rattle.cd_wire.specs.Targets.{or_root};
ghost use Rattle.cd_text.specs.Gives.{Gives};
ghost use Rattle.cd_fill.specs.declared.fault.FillFault.{FillFault};
ghost use Rattle.cd_rewrite.specs.Steps.{same_query, moved, method_changed, query_changed, target_changed, without_prefix, prefix_stripped, without_suffix, suffix_stripped, replaced, all_replaced, query_replaced, target_replaced, substrings_replaced, rewritten};

use crate::rewriting::{QueryChange, Replacement, Rewriting, Target};
use crate::substrings::substituted;
use crate::uri_text::uri_text;
use cd_fill::{FillFault, Lent, RequestLine, with_slash, with_slash_before};
use cd_module::{ends_in_any_case, starts_in_any_case};
use cd_text::{List, NoMemory, Octets, Text, rest_from};
use std::alloc::Global;

fn same_query(query: &Option<Lent<'_, u8>>, other: &Option<Octets>) -> bool
    ensures { result ≡ same_query query.now other.now }
{
    match (query, other) {
        (None, None) => true,
        (Some(query), Some(other)) => query.equals(other.as_slice()),
        _ => false,
    }
}

fn text_bytes<'r>(text: Text) -> Lent<'r, u8>
    ensures { result ≡ text }
{
    Lent::octets(Octets::from_vec(text.into_string().into_bytes()))
}

#[tactic(auto, unfolding(crate::specs::Steps::method_changed))]
fn method_changed<'r>(method: Option<Text>, line: RequestLine<'r>) -> RequestLine<'r>
    ensures { result ≡ method_changed method line.entry }
{
    let mut line = line;
    if let Some(method) = method {
        line.method = text_bytes(method);
    }
    line
}

fn keeps_path(path: &Option<Octets>, old: &Lent<'_, u8>) -> bool
    ensures { result ≡ bytes_eq old.now (unwrap_or path.now old.now) }
{
    match path {
        Some(path) => old.equals(path.as_slice()),
        None => true,
    }
}

fn keeps_query(change: &QueryChange, old: &Option<Lent<'_, u8>>) -> bool
    ensures { result ≡ same_query old.now (query_changed change.now old.now) }
{
    match change {
        QueryChange::Becomes(query) => same_query(old, query),
        QueryChange::Stays => true,
    }
}

fn path_changed_to<'r>(path: Option<Octets>, old: Lent<'r, u8>) -> Lent<'r, u8>
    ensures { result ≡ unwrap_or path old.entry }
{
    match path {
        Some(path) => Lent::octets(path),
        None => old,
    }
}

fn query_changed<'r>(change: QueryChange, old: Option<Lent<'r, u8>>) -> Option<Lent<'r, u8>>
    ensures { result ≡ query_changed change old.entry }
{
    match change {
        QueryChange::Becomes(Some(query)) => Some(Lent::octets(query)),
        QueryChange::Becomes(None) => None,
        QueryChange::Stays => old,
    }
}

// The uri is written again, unless path and query stay.
#[tactic(auto, unfolding(crate::specs::Steps::target_changed, crate::specs::Steps::moved))]
fn target_changed<'r>(
    alloc: Global,
    target: Target,
    line: RequestLine<'r>,
) -> Result<RequestLine<'r>, NoMemory>
    ensures { IfOk result (λ made. made ≡ target_changed target line.entry) }
{
    if keeps_path(&target.path, &line.path) && keeps_query(&target.query, &line.query) {
        return Ok(line);
    }
    let RequestLine {
        method,
        path,
        query,
        uri: _,
    } = line;
    let path = path_changed_to(target.path, path);
    let query = query_changed(target.query, query);
    let uri = Lent::octets(uri_text(alloc, path.as_slice(), &query)?);
    Ok(RequestLine {
        method,
        path,
        query,
        uri,
    })
}

// Another path, where there is one.
#[tactic(auto, unfolding(crate::specs::Steps::target_changed))]
fn path_changed<'r>(
    alloc: Global,
    path: Option<Octets>,
    line: RequestLine<'r>,
) -> Result<RequestLine<'r>, NoMemory>
    ensures { IfOk result (λ made. made ≡ moved (unwrap_or path line.entry.path) line.entry.query line.entry) }
{
    let query = QueryChange::Stays;
    target_changed(alloc, Target { path, query }, line)
}

// Another path, where the prefix is taken from this one.
#[tactic(auto, unfolding(crate::specs::Steps::without_prefix))]
fn without_prefix(alloc: Global, prefix: &[u8], path: &[u8]) -> Result<Option<Octets>, NoMemory>
    ensures { IfOk result (λ made. unwrap_or made path.now ≡ without_prefix prefix.now path.now) }
{
    if !starts_in_any_case(path, prefix) {
        return Ok(None);
    }
    let path = with_slash(alloc, rest_from(path, prefix.len()))?;
    Ok(Some(path))
}

#[tactic(auto, unfolding(crate::specs::Steps::prefix_stripped))]
fn prefix_stripped<'r>(
    alloc: Global,
    prefix: &Option<Octets>,
    line: RequestLine<'r>,
) -> Result<RequestLine<'r>, NoMemory>
    ensures { IfOk result (λ made. made ≡ prefix_stripped prefix.now line.entry) }
{
    match prefix {
        Some(prefix) => {
            let path = without_prefix(alloc, prefix.as_slice(), line.path.as_slice())?;
            path_changed(alloc, path, line)
        }
        None => Ok(line),
    }
}

// What stands before so many bytes at the end.
fn before(text: &[u8], count: usize) -> &[u8]
    ensures { result.now ≡ take (length text.now - count) text.now }
{
    &text[..text.len().saturating_sub(count)]
}

fn or_root(text: &[u8]) -> &[u8]
    ensures { result.now ≡ or_root text.now }
{
    if text.is_empty() { b"/" } else { text }
}

// Another path, where the suffix is taken from this one.
#[tactic(auto, unfolding(crate::specs::Steps::without_suffix))]
fn without_suffix(alloc: Global, suffix: &[u8], path: &[u8]) -> Result<Option<Octets>, NoMemory>
    ensures { IfOk result (λ made. unwrap_or made path.now ≡ without_suffix suffix.now path.now) }
{
    if !ends_in_any_case(path, suffix) {
        return Ok(None);
    }
    let path = Octets::from_slice(alloc, or_root(before(path, suffix.len())))?;
    Ok(Some(path))
}

#[tactic(auto, unfolding(crate::specs::Steps::suffix_stripped))]
fn suffix_stripped<'r>(
    alloc: Global,
    suffix: &Option<Octets>,
    line: RequestLine<'r>,
) -> Result<RequestLine<'r>, NoMemory>
    ensures { IfOk result (λ made. made ≡ suffix_stripped suffix.now line.entry) }
{
    match suffix {
        Some(suffix) => {
            let path = without_suffix(alloc, suffix.as_slice(), line.path.as_slice())?;
            path_changed(alloc, path, line)
        }
        None => Ok(line),
    }
}

fn replaced(alloc: Global, one: &Replacement, text: &[u8]) -> Result<Octets, FillFault>
    ensures { Gives FillFault.NoMemory result (replaced one.now text.now) }
{
    substituted(
        alloc,
        one.find.as_slice(),
        one.replace.as_slice(),
        one.limit,
        text,
    )
}

#[tactic(auto, unfolding(crate::specs::Steps::all_replaced))]
fn all_replaced(
    alloc: Global,
    replacements: &List<Replacement>,
    text: &[u8],
) -> Result<Octets, FillFault>
    ensures { Gives FillFault.NoMemory result (all_replaced replacements.now text.now) }
{
    let mut now = Octets::from_slice(alloc, text)?;
    for one in replacements.as_slice() {
        now = replaced(alloc, one, now.as_slice())?;
    }
    Ok(now)
}

#[tactic(auto, unfolding(crate::specs::Steps::query_replaced))]
fn query_replaced(
    alloc: Global,
    replacements: &List<Replacement>,
    query: &Option<Lent<'_, u8>>,
) -> Result<Option<Octets>, FillFault>
    ensures { Gives FillFault.NoMemory result (query_replaced replacements.now query.now) }
{
    match query {
        Some(query) => Ok(Some(all_replaced(alloc, replacements, query.as_slice())?)),
        None => Ok(None),
    }
}

// Path and query as they are replaced.
#[tactic(auto, unfolding(crate::specs::Steps::target_replaced))]
fn target_replaced(
    alloc: Global,
    replacements: &List<Replacement>,
    line: &RequestLine<'_>,
) -> Result<Target, FillFault>
    ensures { Gives FillFault.NoMemory result (target_replaced replacements.now line.now) }
{
    let path = all_replaced(alloc, replacements, line.path.as_slice())?;
    let path = Some(with_slash_before(alloc, path)?);
    let query = query_replaced(alloc, replacements, &line.query)?;
    let query = QueryChange::Becomes(query);
    Ok(Target { path, query })
}

#[tactic(auto, unfolding(crate::specs::Steps::substrings_replaced))]
fn substrings_replaced<'r>(
    alloc: Global,
    replacements: &Option<List<Replacement>>,
    line: RequestLine<'r>,
) -> Result<RequestLine<'r>, FillFault>
    ensures { Gives FillFault.NoMemory result (substrings_replaced replacements.now line.entry) }
{
    match replacements {
        Some(replacements) => {
            let target = target_replaced(alloc, replacements, &line)?;
            let line = target_changed(alloc, target, line)?;
            Ok(line)
        }
        None => Ok(line),
    }
}

/// What is asked for, rewritten step by step: first the method, then path and query by a target, then a prefix and a suffix of
/// the path, then what is replaced in the path and in the query. `TooLong` exactly where a replacement makes more than
/// `MAX_FILLED_BYTES` of the path or of the query.
#[tactic(auto, unfolding(crate::specs::Steps::rewritten))]
pub fn rewritten<'r>(
    alloc: Global,
    rewriting: Rewriting,
    line: &RequestLine<'r>,
) -> Result<RequestLine<'r>, FillFault>
    ensures { Gives FillFault.NoMemory result (rewritten rewriting line.now) }
{
    let line = method_changed(rewriting.method, line.copy(alloc)?);
    let line = target_changed(alloc, rewriting.target, line)?;
    let line = prefix_stripped(alloc, &rewriting.prefix, line)?;
    let line = suffix_stripped(alloc, &rewriting.suffix, line)?;
    substrings_replaced(alloc, &rewriting.replacements, line)
}
