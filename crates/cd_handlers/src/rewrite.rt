ghost use Rattle.std.specs.Prelude.{◌≡◌, ◌||◌};
ghost use Rattle.std.specs.List.{list_any, list_all};
ghost use Rattle.http_header.specs.Token.{is_token_byte};
ghost use Rattle.cd_fill.specs.Filling.{open_brace};
ghost use Rattle.cd_handlers.specs.Rewrite.{is_token, method_text, find_text, limit, most_of, substring, rewrite};

use crate::texts::{has_brace, no_text};
use cd_module::{LoadFault, LoadKind, Settings, fields_of, needed, optional};
use cd_text::{List, Text};
use cd_tree::{Num, Place, Tree};
use http_header::is_token_char;
use std::alloc::Global;

/// `rewrite`: what is asked for from here on (Caddy, JSON Config Structure, http.handlers.rewrite). What is not given stays.
#[derive(Debug, Drop)]
pub struct Rewrite {
    /// Another method.
    pub method: Option<MethodText>,
    /// Another path, and behind a `?` another query.
    pub uri: Option<Text>,
    /// What is taken from the front of the path.
    pub strip_path_prefix: Option<Text>,
    /// What is taken from its end.
    pub strip_path_suffix: Option<Text>,
    /// What is replaced in the path and in the query.
    pub uri_substring: Option<List<Substring>>,
}

/// A method in any case: a token (RFC 9110, section 9.1), or a text with a placeholder.
#[derive(Debug, Drop)]
pub struct MethodText {
    pub text: Text,
}

/// A text that is looked for, and what takes its place.
#[derive(Debug, Drop)]
pub struct Substring {
    pub find: Text,
    pub replace: Text,
    /// How often it is replaced at most; 0 is no limit.
    pub limit: u64,
}

/// A text that is not empty.
#[derive(Debug, Drop)]
pub(crate) struct FindText {
    pub text: Text,
}

/// How often something is done at most.
#[derive(Debug, Drop)]
pub(crate) struct Limit {
    pub most: u64,
}

fn are_token_bytes(text: &[u8]) -> bool
    ensures { result ≡ list_all is_token_byte text.now }
{
    text.iter().all(|byte| is_token_char(*byte))
}

/// Whether it is a token, as a method is.
pub(crate) fn is_token(text: &[u8]) -> bool
    ensures { result ≡ is_token text.now }
{
    text.len() > 0 && are_token_bytes(text)
}

fn is_method(text: &[u8]) -> bool
    ensures { result ≡ (list_any open_brace text.now || is_token text.now) }
{
    has_brace(text) || is_token(text)
}

impl Settings for MethodText {
    ghost reader = { method_text };

    #[tactic(auto, unfolding(crate::specs::Rewrite::method_text))]
    fn read(alloc: Global, tree: &Tree, at: &Place<'_>) -> Result<MethodText, LoadFault> {
        let text = Text::read(alloc, tree, at)?;
        if is_method(text.as_str().as_bytes()) {
            Ok(MethodText { text })
        } else {
            Err(LoadFault::at(alloc, LoadKind::BadValue, at))
        }
    }
}

impl Settings for FindText {
    ghost reader = { find_text };

    #[tactic(auto, unfolding(crate::specs::Rewrite::find_text))]
    fn read(alloc: Global, tree: &Tree, at: &Place<'_>) -> Result<FindText, LoadFault> {
        let text = Text::read(alloc, tree, at)?;
        if text.len() == 0 {
            Err(LoadFault::at(alloc, LoadKind::BadValue, at))
        } else {
            Ok(FindText { text })
        }
    }
}

impl Settings for Limit {
    ghost reader = { limit };

    #[tactic(auto, unfolding(crate::specs::Rewrite::limit))]
    fn read(alloc: Global, tree: &Tree, at: &Place<'_>) -> Result<Limit, LoadFault> {
        let number = Num::read(alloc, tree, at)?;
        if number.negative {
            Err(LoadFault::at(alloc, LoadKind::BadValue, at))
        } else {
            Ok(Limit { most: number.size })
        }
    }
}

fn most_of(limit: Option<Limit>) -> u64
    ensures { result ≡ most_of limit }
{
    match limit {
        Some(limit) => limit.most,
        None => 0,
    }
}

impl Settings for Substring {
    ghost reader = { substring };

    #[tactic(auto, unfolding(crate::specs::Rewrite::substring))]
    fn read(alloc: Global, tree: &Tree, at: &Place<'_>) -> Result<Substring, LoadFault> {
        let fields = fields_of(alloc, tree, at, "find replace limit")?;
        let find = needed::<FindText>(alloc, &fields, at, "find")?;
        let replace = optional::<Text>(alloc, &fields, at, "replace")?;
        let limit = optional::<Limit>(alloc, &fields, at, "limit")?;
        Ok(Substring {
            find: find.text,
            replace: replace.unwrap_or(no_text(alloc)),
            limit: most_of(limit),
        })
    }
}

impl Settings for Rewrite {
    ghost reader = { rewrite };

    #[tactic(auto, unfolding(crate::specs::Rewrite::rewrite))]
    fn read(alloc: Global, tree: &Tree, at: &Place<'_>) -> Result<Rewrite, LoadFault> {
        let names = "handler method uri strip_path_prefix strip_path_suffix uri_substring";
        let fields = fields_of(alloc, tree, at, names)?;
        let method = optional::<MethodText>(alloc, &fields, at, "method")?;
        let uri = optional::<Text>(alloc, &fields, at, "uri")?;
        let prefix = optional::<Text>(alloc, &fields, at, "strip_path_prefix")?;
        let suffix = optional::<Text>(alloc, &fields, at, "strip_path_suffix")?;
        let substrings = optional::<List<Substring>>(alloc, &fields, at, "uri_substring")?;
        Ok(Rewrite {
            method,
            uri,
            strip_path_prefix: prefix,
            strip_path_suffix: suffix,
            uri_substring: substrings,
        })
    }
}
