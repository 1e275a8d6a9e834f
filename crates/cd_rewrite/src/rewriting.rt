use cd_text::{List, Octets, Text};

/// What is done to what is asked for, step by step. What is not given stays.
#[derive(Debug, Drop)]
pub struct Rewriting {
    /// Another method.
    pub method: Option<Text>,
    /// Another path or query.
    pub target: Target,
    /// What is taken from the front of the path, in any case.
    pub prefix: Option<Octets>,
    /// What is taken from its end, in any case.
    pub suffix: Option<Octets>,
    /// What is replaced in the path and in the query, one after another. Where they are given, though there be none, a path gets
    /// a `/` in front where none stands.
    pub replacements: Option<List<Replacement>>,
}

/// Where a request goes.
#[derive(Debug, Drop)]
pub struct Target {
    /// Another path, with its escapes read.
    pub path: Option<Octets>,
    pub query: QueryChange,
}

/// What becomes of a query.
#[derive(Debug, Drop)]
pub enum QueryChange {
    Stays,
    /// Another query as it is sent, or none.
    Becomes(Option<Octets>),
}

/// A text that is looked for, and what takes its place.
#[derive(Debug, Drop)]
pub struct Replacement {
    /// Where it is empty, nothing is replaced.
    pub find: Octets,
    pub replace: Octets,
    /// How often at most, in the path and in the query each; 0 is no limit.
    pub limit: u64,
}
