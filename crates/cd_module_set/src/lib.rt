//! Sets of modules: what a configuration comes to, and what it does once it runs.
//!
//! A `ModuleSet` says of every tree whether it is a configuration, which modules and apps one consists of (`Plan` of
//! `cd_legal`), and what it does: who answers at an address, and with what (`Acts` of specs/Acts.antt). `load` gives a `Loaded`,
//! whose type keeps that its tree is a configuration of the set, that its plan is that of the tree, and that its compiled form does
//! what the tree says. So the layers above, which make modules, publish configurations and serve requests, know no module.
//!
//! A set implements the trait; which modules there are is left to it. What requests ask for is a meaning alone (`change`):
//! no call of the trait computes it.
#![tactic(auto)]

mod laws;
mod loaded;
mod set;
mod target;

pub use laws::plans_have_as_many_modules;
pub use loaded::Loaded;
pub use set::ModuleSet;
pub use target::{Line, Responder, Target};
