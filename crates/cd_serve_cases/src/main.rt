//! Changes of the configuration by two passes of one hall, as `cd_serve` makes them, under two configurations that never change.
//!
//! Of the set of modules (`cd_fixed`) the two configurations are in plans.rt: each has one app with one address, so that the fixtures'
//! calls show each attempt. Most calls of a pass are in `cd_pair`, which also makes the hall and ends it; asking.rt has requests for
//! changes, and drafting.rt makes drafts, opens and publishes them step by step: each spends its ticket, draft and duty, also where
//! memory runs out. scenes.rt has what happens in a hall of two passes, and telling.rt prints what it came to.
#![tactic(auto)]

mod asking;
mod drafting;
mod plans;
mod scenes;
mod telling;

use scenes::{Scene, meet};
use std::process::ExitCode;
use telling::tell;

const SCENES: [Scene; 4] = [
    Scene::SupersededTwice,
    Scene::Halted,
    Scene::StillInUse,
    Scene::CannotOpen,
];

fn main(rt: HostRuntime) -> ExitCode {
    for scene in SCENES {
        let Ok((shown, ended)) = meet(&rt, rt.alloc(), scene) else {
            return ExitCode::from(2);
        };
        if tell(&rt, rt.alloc(), scene, &shown, &ended).is_err() {
            return ExitCode::from(2);
        }
    }
    ExitCode::SUCCESS
}
