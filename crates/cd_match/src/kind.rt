//! The names of matchers.
ghost use Rattle.std.specs.Prelude.{◌≡◌};
ghost use Rattle.cd_match.specs.Names.{kind_name, kind_named, kind_of, matcher_name};

use crate::matcher::Matcher;

/// Which matcher (Caddy, JSON Config Structure, http.matchers).
#[derive(Clone, Copy, Debug, PartialEq, Eq)]
pub enum MatcherKind {
    Host,
    Path,
    Method,
    Header,
    Query,
    Vars,
    Not,
}

const KINDS: [MatcherKind; 7] = [
    MatcherKind::Host,
    MatcherKind::Path,
    MatcherKind::Method,
    MatcherKind::Header,
    MatcherKind::Query,
    MatcherKind::Vars,
    MatcherKind::Not,
];

impl MatcherKind {
    /// The name in a set of matchers, which is the last label of the module's id: `host` of `http.matchers.host`.
    #[tactic(auto, unfolding(crate::specs::Names::kind_name))]
    pub fn name(self) -> &'static str
        ensures { result.now ≡ kind_name self }
    {
        match self {
            MatcherKind::Host => "host",
            MatcherKind::Path => "path",
            MatcherKind::Method => "method",
            MatcherKind::Header => "header",
            MatcherKind::Query => "query",
            MatcherKind::Vars => "vars",
            MatcherKind::Not => "not",
        }
    }

    /// The matcher of that name; `None` where there is none. It takes no memory.
    #[tactic(auto, unfolding(crate::specs::Names::kind_named))]
    pub fn named(name: &str) -> Option<MatcherKind>
        ensures { result ≡ kind_named name.now }
    {
        for kind in KINDS.as_slice() {
            if kind.name() == name {
                return Some(*kind);
            }
        }
        None
    }
}

impl Matcher {
    /// Which matcher it is.
    pub fn kind(&self) -> MatcherKind
        ensures { result ≡ kind_of self.now }
    {
        match self {
            Matcher::Host(_) => MatcherKind::Host,
            Matcher::Path(_) => MatcherKind::Path,
            Matcher::Method(_) => MatcherKind::Method,
            Matcher::Header(_) => MatcherKind::Header,
            Matcher::Query(_) => MatcherKind::Query,
            Matcher::Vars(_) => MatcherKind::Vars,
            Matcher::Not(_) => MatcherKind::Not,
        }
    }

    /// The name of its module without the namespace `http.matchers`. What was read under a name has that name, as the law
    /// `matchers_have_their_names` says.
    pub fn name(&self) -> &'static str
        ensures { result.now ≡ matcher_name self.now }
    {
        self.kind().name()
    }
}
