//! The target of a request, and its parts.
ghost use Rattle.std.specs.Prelude.{◌≡◌, ℕ, true, length};
ghost use Rattle.std.specs.List.{list_all, before_first, position};
ghost use Rattle.std.specs.Option.{option_copied};
ghost use Rattle.cd_wire.specs.Targets.{is_question_mark, is_target_byte, scheme_length, has_scheme, ends_authority, authority_of, local_part, raw_path, query_of, has_form, is_target};

use crate::texts::is_text;
use cd_text::escapes_are_whole;

/// Whether the target begins with `http://`.
pub fn has_scheme(target: &[u8]) -> bool
    ensures { result ≡ has_scheme target.now }
{
    target.len() >= 7 && is_text(&target[..7], b"http://")
}

fn authority_end(text: &[u8]) -> Option<usize>
    ensures { result ≡ position ends_authority text.now }
{
    text.iter().position(|byte| *byte == b'/' || *byte == b'?')
}

/// The authority of an absolute target.
pub(crate) fn authority_of(target: &[u8]) -> &[u8]
    requires { has_scheme target.now ≡ true }
    ensures { result.now ≡ authority_of target.now }
{
    let text = &target[7..];
    match authority_end(text) {
        Some(end) => &text[..end],
        None => text,
    }
}

/// The target without scheme and authority.
pub fn local_part(target: &[u8]) -> &[u8]
    ensures { result.now ≡ local_part target.now }
{
    if has_scheme(target) {
        &target[7 + authority_of(target).len()..]
    } else {
        target
    }
}

fn question_mark(target: &[u8]) -> Option<usize>
    ensures { result ≡ position is_question_mark target.now }
{
    target.iter().position(|byte| *byte == b'?')
}

/// What stands before the first `?`: all, where there is none.
pub fn before_question_mark(text: &[u8]) -> &[u8]
    ensures { result.now ≡ before_first is_question_mark text.now }
{
    match question_mark(text) {
        Some(end) => &text[..end],
        None => text,
    }
}

/// The path as it stands in the target.
pub(crate) fn raw_path(target: &[u8]) -> &[u8]
    ensures { result.now ≡ raw_path target.now }
{
    let path = before_question_mark(local_part(target));
    if path.is_empty() { b"/" } else { path }
}

/// What stands behind the first `?`, where there is one.
pub fn query_of(target: &[u8]) -> Option<&[u8]>
    ensures { option_copied result ≡ query_of target.now }
{
    match question_mark(target) {
        Some(end) => Some(&target[end + 1..]),
        None => None,
    }
}

fn all_target_bytes(target: &[u8]) -> bool
    ensures { result ≡ list_all is_target_byte target.now }
{
    target
        .iter()
        .all(|byte| byte.is_ascii_graphic() && *byte != b'#')
}

fn has_form(method: &[u8], target: &[u8]) -> bool
    ensures { result ≡ has_form method.now target.now }
{
    target.starts_with(b"/")
        || (has_scheme(target) && !authority_of(target).is_empty())
        || (target == b"*".as_slice() && method == b"OPTIONS".as_slice())
}

/// Whether a request with this method may have the target.
pub(crate) fn is_target(method: &[u8], target: &[u8]) -> bool
    ensures { result ≡ is_target method.now target.now }
{
    all_target_bytes(target) && has_form(method, target) && escapes_are_whole(raw_path(target))
}
