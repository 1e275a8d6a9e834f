//! What the sites of a Caddyfile answer, by their directives, and that its configuration answers so. These are laws: the program uses
//! none of them.
//!
//! `site_answer` (specs/Answering.antt) says what the sites of a port answer to a request: the first site whose host fits, those
//! with a host first, does the directives of its block in their order. It knows no routes, no groups and no settings. Examples are in
//! proofs/Examples.antt.
//!
//! `caddyfiles_mean_their_sites` (file_law.rt) is the law of the whole: where the tree of a file is a configuration, each request to a
//! port that a site has is answered as `site_answer` says, whatever else the file says. It joins three:
//!
//! - `sequences_mean_their_routes` (sequence_law.rt). A sequence (specs/Sequences.antt) is a list of handlers and of sequences inside,
//!   each with its matchers. Of some handlers one alone is done, and so of the sequences inside. What it does is said by the effects
//!   of its handlers, in order, with no word of routes or groups. `routes_of` gives the routes that do the same: a route for each
//!   step, those of which one alone is done in one group, and a subroute for each sequence inside. No handler and no matcher sees
//!   which groups are taken (proofs/Blind.antt), and so an induction over the sequence goes through, with any groups taken before and
//!   any routes after (proofs/Heart.antt).
//! - `sites_mean_their_routes` (server_law.rt). specs/Settings.antt has the settings that the directives come to: a handler for each,
//!   matchers, and the routes of sites. A server with these routes answers as the sites do: each directive does what its handler does
//!   (proofs/Actions.antt), and matchers hold where their tests hold (proofs/Matchers.antt), so a block does what its sequence of
//!   handlers does (proofs/Blocks.antt).
//! - `routes_of_sites_are_read` (reading_law.rt). Where the routes of sites in a tree are read at all, they are those of
//!   specs/Settings.antt, by what was read of each object and of each list (proofs/Objects.antt), for handlers, matchers and routes
//!   (proofs/Handlers.antt, ReadMatchers.antt, Routes.antt). An `@id` is no part of settings, so a name of a field or a key may not
//!   be one: all ids of a tree that loads are texts or numbers, and the values here are lists (proofs/Marks.antt). Variables have
//!   names of their own (specs/Variables.antt).
//!
//! What is left is that the servers are read (proofs/Servers.antt, Listening.antt), which of them has the port (proofs/Parts.antt,
//! Whole.antt), that there are fewer groups than modules (proofs/Modules.antt), and what the sites of a file may not say
//! (proofs/Files.antt).
#![tactic(auto)]

mod file_law;
mod reading_law;
mod sequence_law;
mod server_law;

pub use file_law::caddyfiles_mean_their_sites;
pub use reading_law::routes_of_sites_are_read;
pub use sequence_law::sequences_mean_their_routes;
pub use server_law::sites_mean_their_routes;
