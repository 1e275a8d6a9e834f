//! The configuration that a Caddyfile means.
//!
//! `adapt` gives the tree of a file, or its first fault, exactly: `adapted` of cd_caddyfile's specs/Adapting.antt says which.
//! Nothing recurses, however deep blocks nest. The steps are these:
//!
//! 1. `cd_caddyfile::read_matchers` finds the first fault of the lines, or the matchers; `cd_parts::table_of` gives their sets.
//! 2. The lines are split into those of each site, with their words spelled out (splitting.rt).
//! 3. The lines of a site are read from the last to the first (laying.rt). So a block is read before the line that opens it, and
//!    what it needs of groups is known there (steps.rt). A line adds the handler of a directive (`cd_parts::handler`).
//! 4. The sites are sorted into those of each port, with a host first (ports.rt).
//! 5. Sites become the routes of servers, which have the numbers of groups one after another (serving.rt). Those of a site are
//!    counted before its routes are made (counting.rt), since the last line is read first.
//!
//! So a file of n lines takes n log n steps here: each site is put at its port once, and no step looks at all sites of other ports.
//!
//! Each part is kept with the length of its text and its depth (cd_parts), so that a tree that is too long or too deep is known
//! before it is put together. Sets of matchers are shared.
#![tactic(auto)]

mod adapting;
mod counting;
mod laying;
mod ports;
mod serving;
mod splitting;
mod steps;

pub use adapting::adapt;
