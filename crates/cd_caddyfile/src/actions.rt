//! The arguments of directives.
ghost use Rattle.std.specs.Prelude.{◌≡◌, is_some, not, ◌||◌, ◌==◌, length, ◌&&◌};
ghost use Rattle.std.specs.Char.{is_ascii_digit};
ghost use Rattle.std.specs.List.{list_all};
ghost use Rattle.cd_caddyfile.specs.Directives.{action_of, vars_args, header_args, redir_args, rewrite_args, respond_args, code_of, redir_code};

use crate::address::{are_digits, begins_with};
use crate::directive::Directive;
use cd_text::Octets;

/// Whether these are arguments of a directive without a block, after its matcher.
pub fn has_action(directive: Directive, args: &[Octets]) -> bool
    ensures { result ≡ is_some (action_of directive args.now) }
{
    match directive {
        Directive::Vars => are_vars(args),
        Directive::Header => are_header(args),
        Directive::Redir => are_redir(args),
        Directive::Rewrite => are_rewrite(args),
        Directive::Handle => false,
        Directive::Respond => are_respond(args),
    }
}

fn are_vars(args: &[Octets]) -> bool
    ensures { result ≡ is_some (vars_args args.now) }
{
    match args {
        [name, _] => !(name.equals(b"handler") || name.equals(b"@id")),
        _ => false,
    }
}

fn are_header(args: &[Octets]) -> bool
    ensures { result ≡ is_some (header_args args.now) }
{
    match args {
        [field] => begins_with(b'-', field.as_slice()),
        [field, _] => !begins_with(b'-', field.as_slice()),
        _ => false,
    }
}

fn are_redir(args: &[Octets]) -> bool
    ensures { result ≡ is_some (redir_args args.now) }
{
    match args {
        [_] => true,
        [_, code] => is_redir_code(code.as_slice()),
        _ => false,
    }
}

fn are_rewrite(args: &[Octets]) -> bool
    ensures { result ≡ is_some (rewrite_args args.now) }
{
    match args {
        [_] => true,
        _ => false,
    }
}

fn are_respond(args: &[Octets]) -> bool
    ensures { result ≡ is_some (respond_args args.now) }
{
    match args {
        [] => true,
        [_] => true,
        [_, status] => is_code(status.as_slice()),
        _ => false,
    }
}

fn is_redir_code(text: &[u8]) -> bool
    ensures { result ≡ is_some (redir_code text.now) }
{
    text == b"permanent".as_slice() || (text == b"temporary".as_slice() || is_code(text))
}

// Three digits.
fn is_code(text: &[u8]) -> bool
    ensures { result ≡ is_some (code_of text.now) }
{
    text.len() == 3 && are_digits(text)
}
