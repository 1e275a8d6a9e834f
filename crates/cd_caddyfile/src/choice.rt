//! The matcher that the first argument of a directive is.
ghost use Rattle.std.specs.Prelude.{◌≡◌, drop};
ghost use Rattle.cd_caddyfile.specs.Directives.{matcher_of, matcher_unless_alone, choice_before, choice_of, own_args};

use crate::address::begins_with;
use crate::directive::{Directive, is_matcher};
use cd_text::Octets;

/// What kind of matcher the first argument of a directive is.
#[derive(Clone, Copy)]
pub enum Choice {
    /// It is none.
    Unmatched,
    /// `*`
    Everything,
    /// It begins with `/`.
    ByPath,
    /// It begins with `@`.
    ByName,
}

/// The matcher that the first argument is. Of `rewrite` and `redir` a single argument is none.
pub fn choice_of(directive: Directive, args: &[Octets]) -> Choice
    ensures { result ≡ choice_of directive args.now }
{
    match args {
        [] => Choice::Unmatched,
        [first, others @ ..] => choice_before(directive, first.as_slice(), others),
    }
}

fn choice_before(directive: Directive, first: &[u8], others: &[Octets]) -> Choice
    ensures { result ≡ choice_before directive first.now others.now }
{
    match directive {
        Directive::Vars => matcher_of(first),
        Directive::Header => matcher_of(first),
        Directive::Redir => matcher_unless_alone(first, others),
        Directive::Rewrite => matcher_unless_alone(first, others),
        Directive::Handle => matcher_of(first),
        Directive::Respond => matcher_of(first),
    }
}

fn matcher_unless_alone(first: &[u8], others: &[Octets]) -> Choice
    ensures { result ≡ matcher_unless_alone first.now others.now }
{
    if others.len() == 0 {
        Choice::Unmatched
    } else {
        matcher_of(first)
    }
}

fn matcher_of(arg: &[u8]) -> Choice
    ensures { result ≡ matcher_of arg.now }
{
    if arg == b"*".as_slice() {
        Choice::Everything
    } else if begins_with(b'/', arg) {
        Choice::ByPath
    } else if is_matcher(arg) {
        Choice::ByName
    } else {
        Choice::Unmatched
    }
}

/// The arguments without the matcher.
pub fn own_args(directive: Directive, args: &[Octets]) -> &[Octets]
    ensures { result.now ≡ own_args directive args.now }
{
    match choice_of(directive, args) {
        Choice::Unmatched => args,
        Choice::Everything => after_first(args),
        Choice::ByPath => after_first(args),
        Choice::ByName => after_first(args),
    }
}

fn after_first(args: &[Octets]) -> &[Octets]
    ensures { result.now ≡ drop 1 args.now }
{
    match args {
        [] => args,
        [_, others @ ..] => others,
    }
}
