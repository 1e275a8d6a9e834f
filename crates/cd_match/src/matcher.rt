use crate::header::HeaderMatcher;
use crate::host::HostMatcher;
use crate::method::MethodMatcher;
use crate::not::NotMatcher;
use crate::path::PathMatcher;
use crate::query::QueryMatcher;
use crate::vars::VarsMatcher;
use cd_text::List;

/// A test of a request.
#[cycle(matchers)]
#[derive(Debug, Drop)]
pub enum Matcher {
    /// `host`: the host that is asked for.
    Host(HostMatcher),
    /// `path`: the path.
    Path(PathMatcher),
    /// `method`: the method.
    Method(MethodMatcher),
    /// `header`: fields of the request.
    Header(HeaderMatcher),
    /// `query`: keys and values of the query.
    Query(QueryMatcher),
    /// `vars`: variables and placeholders.
    Vars(VarsMatcher),
    /// `not`: sets of which none is to hold.
    Not(NotMatcher),
}

/// Matchers that hold together.
#[cycle(matchers)]
#[derive(Debug, Drop)]
pub struct MatcherSet {
    /// By rising name.
    pub matchers: List<Matcher>,
}
