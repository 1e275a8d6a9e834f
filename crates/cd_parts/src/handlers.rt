//! Handlers of directives.
ghost use Rattle.std.specs.Prelude.{◌≡◌, ◌∷◌, ◌-◌, [], codes, IfOk, IsUtf8, option_map, Some, None};
ghost use Rattle.cd_caddyfile.specs.Directives.{action_of, vars_args, header_args, redir_args, rewrite_args, respond_args, respond_one, code_of, redir_code};
ghost use Rattle.cd_caddyfile.specs.Shape.{handler_of, field, response, status, member};
ghost use Rattle.cd_caddyfile.specs.Sites as says;
ghost use Rattle.cd_parts.specs.Texts.{AreTexts};
ghost use Rattle.cd_tree.specs.declared.tree.Tree as tree;

use crate::making::{add, as_text, list_with, object, object_with, one_text, text_tree};
use cd_caddyfile::{Directive, Entry};
use cd_text::{List, NoMemory, Octets};
use cd_tree::{Num, Tree};
use std::alloc::Global;

/// The handler of a directive without a block, by its arguments after the matcher.
pub fn handler(
    alloc: Global,
    directive: Directive,
    args: &[Octets],
) -> Result<Option<Tree>, NoMemory>
    requires { AreTexts args.now }
    ensures { IfOk result (λ made. made ≡ option_map handler_of (action_of directive args.now)) }
{
    match directive {
        Directive::Vars => vars(alloc, args),
        Directive::Header => header(alloc, args),
        Directive::Redir => redir(alloc, args),
        Directive::Rewrite => rewrite(alloc, args),
        Directive::Handle => Ok(None),
        Directive::Respond => respond(alloc, args),
    }
}

#[tactic(auto, using(crate::proofs::TextTests::first_is_text, crate::proofs::TextTests::second_is_text))]
fn vars(alloc: Global, args: &[Octets]) -> Result<Option<Tree>, NoMemory>
    requires { AreTexts args.now }
    ensures { IfOk result (λ made. made ≡ option_map handler_of (vars_args args.now)) }
{
    match args {
        [name, value] => {
            if name.equals(b"handler") || name.equals(b"@id") {
                return Ok(None);
            }
            Ok(Some(variable(alloc, as_text(name.as_slice()), as_text(value.as_slice()))?))
        }
        _ => Ok(None),
    }
}

#[tactic(auto, using(crate::proofs::HandlerLemmas::handler_vars))]
fn variable(alloc: Global, name: &str, value: &str) -> Result<Tree, NoMemory>
    ensures { IfOk result (λ made. made ≡ handler_of (says.vars name.now value.now)) }
{
    let value = text_tree(alloc, value)?;
    let mut entries = handler_entries(alloc, "vars")?;
    add(alloc, &mut entries, name, value)?;
    object(alloc, entries)
}

// The entries of a handler, of which the first is its name.
fn handler_entries(alloc: Global, name: &str) -> Result<List<Entry>, NoMemory>
    ensures { IfOk result (λ made. made ≡ member (codes "handler") (tree.Text name.now) ∷ []) }
{
    let name = text_tree(alloc, name)?;
    let mut entries = List::new(alloc);
    add(alloc, &mut entries, "handler", name)?;
    Ok(entries)
}

#[tactic(auto, using(crate::proofs::TextTests::first_is_text, crate::proofs::TextTests::second_is_text))]
fn header(alloc: Global, args: &[Octets]) -> Result<Option<Tree>, NoMemory>
    requires { AreTexts args.now }
    ensures { IfOk result (λ made. made ≡ option_map handler_of (header_args args.now)) }
{
    match args {
        [field] => deletion(alloc, field.as_slice()),
        [field, value] => change(alloc, field.as_slice(), as_text(value.as_slice())),
        _ => Ok(None),
    }
}

fn deletion(alloc: Global, field: &[u8]) -> Result<Option<Tree>, NoMemory>
    requires { IsUtf8 field.now }
    ensures { IfOk result (λ made. made ≡ option_map handler_of (header_args (field.now ∷ []))) }
{
    match field {
        [b'-', name @ ..] => Ok(Some(delete_field(alloc, as_text(name))?)),
        _ => Ok(None),
    }
}

fn change(alloc: Global, field: &[u8], value: &str) -> Result<Option<Tree>, NoMemory>
    requires { IsUtf8 field.now }
    ensures { IfOk result (λ made. made ≡ option_map handler_of (header_args (field.now ∷ value.now ∷ []))) }
{
    match field {
        [b'-', ..] => Ok(None),
        [b'+', name @ ..] => Ok(Some(add_field(alloc, as_text(name), value)?)),
        _ => Ok(Some(set_field(alloc, as_text(field), value)?)),
    }
}

#[tactic(auto, using(crate::proofs::HandlerLemmas::handler_delete))]
fn delete_field(alloc: Global, name: &str) -> Result<Tree, NoMemory>
    ensures { IfOk result (λ made. made ≡ handler_of (says.delete_field name.now)) }
{
    let names = one_text(alloc, name)?;
    let mut changes = List::new(alloc);
    add(alloc, &mut changes, "delete", names)?;
    add(alloc, &mut changes, "deferred", Tree::Bool(true))?;
    response(alloc, changes)
}

#[tactic(auto, using(crate::proofs::HandlerLemmas::handler_add))]
fn add_field(alloc: Global, name: &str, value: &str) -> Result<Tree, NoMemory>
    ensures { IfOk result (λ made. made ≡ handler_of (says.add_field name.now value.now)) }
{
    let field = field(alloc, name, value)?;
    let mut changes = List::new(alloc);
    add(alloc, &mut changes, "add", field)?;
    response(alloc, changes)
}

#[tactic(auto, using(crate::proofs::HandlerLemmas::handler_set))]
fn set_field(alloc: Global, name: &str, value: &str) -> Result<Tree, NoMemory>
    ensures { IfOk result (λ made. made ≡ handler_of (says.set_field name.now value.now)) }
{
    let field = field(alloc, name, value)?;
    let mut changes = List::new(alloc);
    add(alloc, &mut changes, "set", field)?;
    response(alloc, changes)
}

// One field with one value.
fn field(alloc: Global, name: &str, value: &str) -> Result<Tree, NoMemory>
    ensures { IfOk result (λ made. made ≡ field name.now value.now) }
{
    let values = one_text(alloc, value)?;
    object_with(alloc, name, values)
}

fn response(alloc: Global, changes: List<Entry>) -> Result<Tree, NoMemory>
    ensures { IfOk result (λ made. made ≡ response changes) }
{
    let changes = object(alloc, changes)?;
    let mut entries = handler_entries(alloc, "headers")?;
    add(alloc, &mut entries, "response", changes)?;
    object(alloc, entries)
}

#[tactic(auto, using(crate::proofs::TextTests::first_is_text, crate::proofs::TextTests::second_is_text))]
fn redir(alloc: Global, args: &[Octets]) -> Result<Option<Tree>, NoMemory>
    requires { AreTexts args.now }
    ensures { IfOk result (λ made. made ≡ option_map handler_of (redir_args args.now)) }
{
    match args {
        [to] => Ok(Some(redirection(alloc, as_text(to.as_slice()), 302)?)),
        [to, code] => match redir_code(code.as_slice()) {
            None => Ok(None),
            Some(code) => Ok(Some(redirection(alloc, as_text(to.as_slice()), code)?)),
        },
        _ => Ok(None),
    }
}

#[tactic(auto, using(crate::proofs::HandlerLemmas::handler_redir))]
fn redirection(alloc: Global, to: &str, code: u64) -> Result<Tree, NoMemory>
    ensures { IfOk result (λ made. made ≡ handler_of (says.redir to.now code)) }
{
    let location = field(alloc, "Location", to)?;
    let mut entries = handler_entries(alloc, "static_response")?;
    add(alloc, &mut entries, "headers", location)?;
    add(alloc, &mut entries, "status_code", status(code))?;
    object(alloc, entries)
}

fn status(code: u64) -> Tree
    ensures { result ≡ status code }
{
    Tree::Num(Num {
        negative: false,
        size: code,
    })
}

#[tactic(auto, using(crate::proofs::TextTests::first_is_text, crate::proofs::TextTests::second_is_text))]
fn rewrite(alloc: Global, args: &[Octets]) -> Result<Option<Tree>, NoMemory>
    requires { AreTexts args.now }
    ensures { IfOk result (λ made. made ≡ option_map handler_of (rewrite_args args.now)) }
{
    match args {
        [to] => Ok(Some(rewriting(alloc, as_text(to.as_slice()))?)),
        _ => Ok(None),
    }
}

#[tactic(auto, using(crate::proofs::HandlerLemmas::handler_rewrite))]
fn rewriting(alloc: Global, to: &str) -> Result<Tree, NoMemory>
    ensures { IfOk result (λ made. made ≡ handler_of (says.rewrite to.now)) }
{
    let to = text_tree(alloc, to)?;
    let mut entries = handler_entries(alloc, "rewrite")?;
    add(alloc, &mut entries, "uri", to)?;
    object(alloc, entries)
}

#[tactic(auto, using(crate::proofs::TextTests::first_is_text, crate::proofs::TextTests::second_is_text))]
fn respond(alloc: Global, args: &[Octets]) -> Result<Option<Tree>, NoMemory>
    requires { AreTexts args.now }
    ensures { IfOk result (λ made. made ≡ option_map handler_of (respond_args args.now)) }
{
    match args {
        [] => Ok(Some(answered(alloc)?)),
        [text] => Ok(Some(respond_one(alloc, as_text(text.as_slice()))?)),
        [body, status] => match code_of(status.as_slice()) {
            None => Ok(None),
            Some(code) => Ok(Some(with_both(alloc, as_text(body.as_slice()), code)?)),
        },
        _ => Ok(None),
    }
}

fn respond_one(alloc: Global, text: &str) -> Result<Tree, NoMemory>
    ensures { IfOk result (λ made. made ≡ handler_of (respond_one text.now (code_of text.now))) }
{
    match code_of(text.as_bytes()) {
        None => with_body(alloc, text),
        Some(code) => with_code(alloc, code),
    }
}

#[tactic(auto, using(crate::proofs::HandlerLemmas::handler_respond))]
fn answered(alloc: Global) -> Result<Tree, NoMemory>
    ensures { IfOk result (λ made. made ≡ handler_of (says.respond None None)) }
{
    let entries = handler_entries(alloc, "static_response")?;
    object(alloc, entries)
}

#[tactic(auto, using(crate::proofs::HandlerLemmas::handler_respond))]
fn with_body(alloc: Global, body: &str) -> Result<Tree, NoMemory>
    ensures { IfOk result (λ made. made ≡ handler_of (says.respond (Some body.now) None)) }
{
    let body = text_tree(alloc, body)?;
    let mut entries = handler_entries(alloc, "static_response")?;
    add(alloc, &mut entries, "body", body)?;
    object(alloc, entries)
}

#[tactic(auto, using(crate::proofs::HandlerLemmas::handler_respond))]
fn with_code(alloc: Global, code: u64) -> Result<Tree, NoMemory>
    ensures { IfOk result (λ made. made ≡ handler_of (says.respond None (Some code))) }
{
    let mut entries = handler_entries(alloc, "static_response")?;
    add(alloc, &mut entries, "status_code", status(code))?;
    object(alloc, entries)
}

#[tactic(auto, using(crate::proofs::HandlerLemmas::handler_respond))]
fn with_both(alloc: Global, body: &str, code: u64) -> Result<Tree, NoMemory>
    ensures { IfOk result (λ made. made ≡ handler_of (says.respond (Some body.now) (Some code))) }
{
    let body = text_tree(alloc, body)?;
    let mut entries = handler_entries(alloc, "static_response")?;
    add(alloc, &mut entries, "body", body)?;
    add(alloc, &mut entries, "status_code", status(code))?;
    object(alloc, entries)
}

fn redir_code(text: &[u8]) -> Option<u64>
    ensures { result ≡ redir_code text.now }
{
    if text == b"permanent".as_slice() {
        Some(301)
    } else if text == b"temporary".as_slice() {
        Some(302)
    } else {
        code_of(text)
    }
}

// Three digits.
fn code_of(text: &[u8]) -> Option<u64>
    ensures { result ≡ code_of text.now }
{
    match text {
        [first, second, third] => {
            if first.is_ascii_digit() && (second.is_ascii_digit() && third.is_ascii_digit()) {
                Some(digit(*first) * 100 + digit(*second) * 10 + digit(*third))
            } else {
                None
            }
        }
        _ => None,
    }
}

fn digit(byte: u8) -> u64
    ensures { result ≡ byte - 48 }
{
    u64::from(byte.saturating_sub(b'0'))
}
