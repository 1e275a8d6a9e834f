//! Cases of sites and of the admin API: rows of data files that say what servers, matchers, handlers, placeholders and admin
//! requests come to.
//!
//! The words are names of files. Each line of a file is a row (see the crate cd_rows), and a member of the row names its kind
//! (kinds.rt). Most rows have a server or a part of one, and what is asked of it (servers.rt). Others look at a scene and at texts
//! filled in it (fill.rt, scene.rt), at names, patterns and the words of refusals (words.rt), at what settings say of
//! themselves (parts.rt), or at what whole configurations plan (configurations.rt). A row that only asks is a request to the admin API
//! (asking.rt), which is decided under a configuration (deciding.rt, saying.rt). data/README.md describes the rows.
//!
//! What is proved here is safety, and that each configuration under which a request is decided has no fault. That a row agrees is
//! said by the run.
#![tactic(auto)]

mod asked;
mod asking;
mod configurations;
mod deciding;
mod fill;
mod kinds;
mod parts;
mod saying;
mod scene;
mod servers;
mod words;

use cd_rows::check_files;
use kinds::SiteKinds;
use std::process::ExitCode;

fn main(rt: HostRuntime) -> ExitCode {
    match check_files(&rt, &SiteKinds) {
        Ok(true) => ExitCode::SUCCESS,
        Ok(false) => ExitCode::from(1),
        Err(_) => ExitCode::from(2),
    }
}
