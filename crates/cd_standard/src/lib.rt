//! The standard modules: what a whole configuration says, its first fault, its plan of modules and apps, and what it does.
//!
//! `Configuration` is read out of a tree as all settings are (specs/Configuration.antt): `admin`, by cd_admin, and `apps` with
//! `echo` and `http`. What a configuration plans is in specs/Plans.antt: which modules are made, and which apps are started, each
//! in its order, with what each opens. `load` gives what a tree comes to (`loaded` of specs/Loading.antt): what was read and its
//! plan, or the first fault in this order: no object, ids, the settings, named routes that lead to themselves, limits, addresses
//! that are listened on twice.
//!
//! `Standard` is the set of these modules (`ModuleSet`). What a configuration does is in specs/Acting.antt: who answers at an
//! address, the admin API, a server, or `echo`; a server's answers are those of cd_routes. It is compiled (`Compiled`): the routes
//! of each server are laid out as a chain of cd_chain, from which its requests are answered. What a compiled configuration does is
//! in specs/Compiled.antt, and `Compiled::compile` says that it is the same. The addresses are compared one after another.
#![tactic(auto)]

mod acting;
mod administering;
mod app;
mod checks;
mod compiled;
mod configuration;
mod counting;
mod echo;
mod found;
mod http;
mod judging;
mod listening;
mod loading;
mod planning;
mod standard;
mod walking;
mod words;

pub use app::App;
pub use checks::Check;
pub use compiled::{Compiled, CompiledApp, CompiledServer};
pub use configuration::Configuration;
pub use echo::Echo;
pub use http::Http;
pub use listening::{Listened, addresses_of, apps_of};
pub use loading::{Configured, load};
pub use planning::modules_of;
pub use standard::{Standard, configurations_cross_threads};
