use crate::index::Entry;
use cd_handlers::{FilledChanges, Handler};
use cd_match::Sets;
use cd_text::{List, Text};

/// What is done at a place, and at which earlier places it goes on. Places are counted from 1; at 0 nothing is left to do.
#[derive(Debug, Drop)]
pub enum Place {
    /// A handler, and what follows it.
    Handler(Handler, usize),
    /// A route: where it is entered, `inside`; else `otherwise`. Where it is in an index only saves time.
    Route {
        matching: Sets,
        group: Option<Text>,
        inside: usize,
        otherwise: usize,
        entry: Option<Entry>,
    },
    /// The first; where that fails, the second with the error.
    Try(usize, usize),
    /// A named route, and what follows it.
    Invoke(usize, usize),
    /// What follows the `Invoke` that led here.
    Return,
}

/// Where the errors of a subroute begin, and where the named routes return to that were being done.
#[derive(Debug, Drop)]
pub struct ErrorRoutes {
    pub begin: usize,
    pub returns: List<usize>,
}

/// What waits for the outcome of what is being done.
#[derive(Debug, Drop)]
pub enum Frame<'r> {
    /// Changes for the answer.
    Changes(FilledChanges<'r>),
    /// What is done with a failure.
    Catch(ErrorRoutes),
}
