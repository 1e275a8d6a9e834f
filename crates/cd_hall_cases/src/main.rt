//! Requests, changes and the halt of a hall, and the openings of its drafts, under two configurations that never change.
//!
//! Of the set of modules (`cd_fixed`) the two configurations are in plans.rt. Most calls of a pass are in `cd_pair`, which also makes the
//! hall and ends it; those of changes, openings and a cache are in changes.rt, opening.rt and caching.rt: each spends its ticket, draft
//! and duty, also where memory runs out. scenes.rt has what happens in a hall of two passes, and telling.rt prints what it came to. In
//! threads.rt each of two passes has a thread of its own.
#![tactic(auto)]

mod caching;
mod changes;
mod counts;
mod opening;
mod plans;
mod scenes;
mod telling;
mod threads;

use scenes::{Scene, meet};
use std::process::ExitCode;
use telling::{tell, tell_threads};
use threads::meet_in_threads;

const SCENES: [Scene; 15] = [
    Scene::InUse,
    Scene::Superseded,
    Scene::ChangerEndsLast,
    Scene::ChangerEndsFirst,
    Scene::Halted,
    Scene::HaltedAtRest,
    Scene::Fails(0),
    Scene::Fails(1),
    Scene::Fails(2),
    Scene::Fails(3),
    Scene::Fails(4),
    Scene::Opens,
    Scene::GivenUp,
    Scene::Overlaps,
    Scene::Cached,
];

fn main(rt: HostRuntime) -> ExitCode {
    for scene in SCENES {
        let Ok((named, ended)) = meet(&rt, rt.alloc(), scene) else {
            return ExitCode::from(2);
        };
        if tell(&rt, scene, &named, &ended).is_err() {
            return ExitCode::from(2);
        }
    }
    let Ok(met) = meet_in_threads(&rt, rt.alloc()) else {
        return ExitCode::from(2);
    };
    if tell_threads(&rt, &met).is_err() {
        return ExitCode::from(2);
    }
    ExitCode::SUCCESS
}
