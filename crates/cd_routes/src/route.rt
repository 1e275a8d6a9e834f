use cd_handlers::Handler;
use cd_match::Sets;
use cd_text::{List, Text};

/// A route: steps for the requests that its matchers match (Caddy, JSON Config Structure, `http.servers.routes`).
#[cycle(routes)]
#[derive(Debug, Drop)]
pub struct Route {
    /// Of the routes of one group, the first that matches alone is taken.
    pub group: Option<Text>,
    /// Which requests it is for: all, where there are no sets.
    pub matching: Sets,
    /// What is done, in this order.
    pub handle: List<Step>,
    /// Whether nothing that follows is done after it, not even behind the subroute that it stands in.
    pub terminal: bool,
}

/// A handler of a route.
#[cycle(routes)]
#[derive(Debug, Drop)]
pub enum Step {
    Handler(Handler),
    Subroute(Subroute),
}

/// Routes in the place of a handler (Caddy, JSON Config Structure, `http.handlers.subroute`).
#[cycle(routes)]
#[derive(Debug, Drop)]
pub struct Subroute {
    pub routes: List<Route>,
    /// What is done where these routes, or what follows them, fail.
    pub errors: Option<List<Route>>,
}
