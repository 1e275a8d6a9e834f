//! The names of directives.
ghost use Rattle.std.specs.Prelude.{◌≡◌};
ghost use Rattle.cd_caddyfile.specs.Directives.{directive_named, is_matcher};

use crate::address::begins_with;

/// The directives, in the order in which those of a block are done.
#[derive(Clone, Copy)]
pub enum Directive {
    Vars,
    Header,
    Redir,
    Rewrite,
    Handle,
    Respond,
}

impl Directive {
    /// The directive of that name.
    pub fn named(name: &[u8]) -> Option<Directive>
        ensures { result ≡ directive_named name.now }
    {
        if name == b"vars".as_slice() {
            Some(Directive::Vars)
        } else if name == b"header".as_slice() {
            Some(Directive::Header)
        } else if name == b"redir".as_slice() {
            Some(Directive::Redir)
        } else if name == b"rewrite".as_slice() {
            Some(Directive::Rewrite)
        } else if name == b"handle".as_slice() {
            Some(Directive::Handle)
        } else if name == b"respond".as_slice() {
            Some(Directive::Respond)
        } else {
            None
        }
    }
}

/// Whether a word is the name of a matcher.
pub fn is_matcher(word: &[u8]) -> bool
    ensures { result ≡ is_matcher word.now }
{
    begins_with(b'@', word)
}
