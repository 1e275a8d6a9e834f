//! The routes of a server: how they are read, and what they answer to a request.
//!
//! A `Server` is read out of a configuration by its name, with its addresses, its routes, the routes inside them, its error
//! routes and its named routes; `routes_are` is the law by which routes are read in one another (specs/Reading.antt,
//! specs/Server.antt). An `invoke` is read only where its server has a named route of its name. A route is also read by itself,
//! and its steps tell the names of their modules (specs/Names.antt). Trees that differ in ids alone are the same server (laws.rt).
//!
//! `server_answer` gives what the definition of specs/Serving.antt gives, and nothing else unless memory runs out. What a
//! route means is in specs/Running.antt: each route and each step of it is told by what it does to what follows it, so a
//! terminal route drops what follows, deferred changes meet its answer, and a subroute's errors catch its failure.
//!
//! An `invoke` does what its named route does (specs/Named.antt; the law `an_invoke_does_its_route`), where no named route leads
//! to itself (specs/Invoking.antt): a server may have one that does, and `first_in_cycle` gives its name.
//!
//! The code keeps a list of what is still to be done, and calls itself only where a subroute has errors.
//!
//! Which requests a matcher matches is left to cd_match, and what a handler does by itself to cd_handlers. How many routes and
//! handlers a server has, and how many subroutes with errors, is counted here, at each `invoke` with its named route
//! (specs/Counting.antt); the limits are for the crates above to apply.
#![tactic(auto)]

mod counting;
mod laws;
mod leading;
mod listen;
mod name_list;
mod named;
mod naming;
mod outcome;
mod reading;
mod route;
mod running;
mod server;
mod serving;
mod work;

pub use laws::{
    a_route_does, a_step_does, an_invoke_does_its_route, names_of_servers_rise, routes_are,
    routes_see_no_ids, servers_are_named_and_listen, servers_see_no_ids, steps_have_their_names,
};
pub use leading::{leads_of, order_of};
pub use listen::{Listen, ListenText};
pub use name_list::NameList;
pub use named::{KnownName, NamedRoute};
pub use outcome::Outcome;
pub use reading::read_route;
pub use route::{Route, Step, Subroute};
pub use server::Server;
pub use serving::{answer_from, server_answer};
