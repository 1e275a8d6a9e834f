//! What is wrong with a line, by where it is.
ghost use Rattle.std.specs.Prelude.{◌≡◌, Option};
ghost use Rattle.cd_caddyfile.specs.Faults.{wrong_site, wrong_test, wrong_matcher, wrong_handle, wrong_action, wrong_directive, wrong_known, wrong_named, wrong_statement};

use crate::actions::has_action;
use crate::choice::own_args;
use crate::directive::{Directive, is_matcher};
use crate::fault::CaddyfileKind;
use crate::matchers::is_test;
use cd_text::Octets;

/// Of a line in a block of directives. It is a matcher or a directive.
pub fn wrong_statement(opens: bool, words: &[Octets]) -> Option<CaddyfileKind>
    ensures { result ≡ wrong_statement opens words.now }
{
    match words {
        [] => Some(CaddyfileKind::UnknownDirective),
        [name, args @ ..] => wrong_named(opens, name.as_slice(), args),
    }
}

fn wrong_named(opens: bool, name: &[u8], args: &[Octets]) -> Option<CaddyfileKind>
    ensures { result ≡ wrong_named opens name.now args.now }
{
    if is_matcher(name) {
        return wrong_matcher(opens, args);
    }
    match Directive::named(name) {
        None => Some(CaddyfileKind::UnknownDirective),
        Some(directive) => wrong_directive(directive, opens, args),
    }
}

// A matcher has a test or a block.
fn wrong_matcher(opens: bool, args: &[Octets]) -> Option<CaddyfileKind>
    ensures { result ≡ wrong_matcher opens args.now }
{
    if !opens {
        return wrong_test(false, args);
    }
    match args {
        [] => None,
        _ => Some(CaddyfileKind::BadBlock),
    }
}

/// Of a line in the block of a matcher. It is a test, and has no block.
pub fn wrong_test(opens: bool, words: &[Octets]) -> Option<CaddyfileKind>
    ensures { result ≡ wrong_test opens words.now }
{
    if opens {
        Some(CaddyfileKind::BadBlock)
    } else if is_test(words) {
        None
    } else {
        Some(CaddyfileKind::BadArguments)
    }
}

fn wrong_directive(directive: Directive, opens: bool, args: &[Octets]) -> Option<CaddyfileKind>
    ensures { result ≡ wrong_directive directive opens args.now }
{
    match directive {
        Directive::Vars => wrong_action(directive, opens, args),
        Directive::Header => wrong_action(directive, opens, args),
        Directive::Redir => wrong_action(directive, opens, args),
        Directive::Rewrite => wrong_action(directive, opens, args),
        Directive::Handle => wrong_handle(opens, args),
        Directive::Respond => wrong_action(directive, opens, args),
    }
}

// `handle` has a block, and nothing but its matcher.
fn wrong_handle(opens: bool, args: &[Octets]) -> Option<CaddyfileKind>
    ensures { result ≡ wrong_handle opens args.now }
{
    if !opens {
        Some(CaddyfileKind::BadBlock)
    } else if own_args(Directive::Handle, args).len() == 0 {
        None
    } else {
        Some(CaddyfileKind::BadArguments)
    }
}

// No other directive has a block.
fn wrong_action(directive: Directive, opens: bool, args: &[Octets]) -> Option<CaddyfileKind>
    ensures { result ≡ wrong_action directive opens args.now }
{
    if opens {
        Some(CaddyfileKind::BadBlock)
    } else if has_action(directive, own_args(directive, args)) {
        None
    } else {
        Some(CaddyfileKind::BadArguments)
    }
}

/// Of a line in no block. It is an address, and has a block.
pub fn wrong_site(opens: bool, has_address: bool) -> Option<CaddyfileKind>
    ensures { result ≡ wrong_site opens has_address }
{
    if !opens {
        Some(CaddyfileKind::BadBlock)
    } else if has_address {
        None
    } else {
        Some(CaddyfileKind::BadAddress)
    }
}
