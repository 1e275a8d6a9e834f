//! The routes of a list that can't match a request's path are skipped.
ghost use Rattle.std.specs.Prelude.{◌≡◌, ◌≤◌, ℕ};
ghost use Rattle.cd_routes.specs.Running.{Rest};
ghost use Rattle.cd_chain.specs.Indexes.{AreSound};
ghost use Rattle.cd_chain.specs.Places.{at};
ghost use Rattle.cd_chain.specs.Steps.{steps_at};

use crate::index::{Entry, Index};
use crate::place::Place;
use cd_fill::Scene;

// Where the route of a place is in an index. Nothing is asked of it: `Index::skip` looks whether the place is there.
fn entry_of(places: &[Place], n: usize) -> Option<Entry> {
    if n == 0 || n > places.len() {
        return None;
    }
    match &places[n - 1] {
        Place::Route { entry, .. } => *entry,
        _ => None,
    }
}

/// Where a scene goes on from a place: where a route is there, at the first one from it on that may match.
pub(crate) fn skip(places: &[Place], indexes: &[Index], n: usize, scene: &Scene<'_>) -> usize
    requires { AreSound places.now indexes.now }
    ensures meaning { (back : Rest) → at places.now result back scene.now ≡ at places.now n back scene.now }
    ensures less { (back : ℕ) → steps_at places.now result back ≤ steps_at places.now n back }
{
    match entry_of(places, n) {
        None => n,
        Some(entry) => match indexes.get(entry.index) {
            None => n,
            Some(index) => index.skip(entry.position, n, scene.current.path.as_slice()),
        },
    }
}
