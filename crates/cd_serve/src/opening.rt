//! A draft is opened: its instances are made, and its apps are started.
ghost use Rattle.std.specs.Prelude.{◌≡◌, ◌<◌, ◌∷◌, [], List, is_err, length};
ghost use Rattle.cd_legal.specs.declared.entry.Entry.{Entry};
ghost use Rattle.cd_legal.specs.Signing.{IsHistory};
ghost use Rattle.cd_gate.specs.Passes.{view};
ghost use Rattle.cd_desk.specs.Instances.{failed_in};
ghost use Rattle.cd_hall.specs.Calls.{IsPassOf};
ghost use Rattle.cd_hall.specs.Drafts.{IsDraftOf, held, one_made, one_started, made_entry, started_entry};
ghost use Rattle.cd_serve.specs.Attempts.{HasMade, IsNewDraft, MayOpen, MakesAll, StartsAll, Opens};

use cd_gate::Pass;
use cd_hall::{Hall, KeyFailed};
use cd_life::{Board, Draft};
use cd_module_set::ModuleSet;
use cd_outside::{Fixtures, Key};
use std::sync::Wait;

/// Makes all instances of a new draft, and starts all its apps.
///
/// # Errors
///
/// The first key that could not be opened. Nothing is made or started after that.
pub fn open_draft<R: Wait, M: ModuleSet, F: Fixtures>(
    rt: &R,
    hall: &Hall<M, F>,
    draft: &mut Draft<M>,
    pass: &mut Pass<Board<M, F>>,
) -> Result<(), Key>
    requires pass { IsPassOf hall.now pass.old }
    requires history { IsHistory (view pass.old).seen }
    requires draft { IsDraftOf (view pass.old) draft.old }
    requires new { IsNewDraft (held draft.old) }
    ensures pass { IsPassOf hall.now pass.new }
    ensures draft { IsDraftOf (view pass.new) draft.new }
    ensures opens { (entries : List Entry) × HasMade (view pass.old) (view pass.new) entries × Opens (held draft.old) (held draft.new) entries (failed_in result) }
{
    if let Err(key) = make_all(rt, hall, draft, pass) {
        return Err(key);
    }
    start_all(rt, hall, draft, pass)
}

fn make_all<R: Wait, M: ModuleSet, F: Fixtures>(
    rt: &R,
    hall: &Hall<M, F>,
    draft: &mut Draft<M>,
    pass: &mut Pass<Board<M, F>>,
) -> Result<(), Key>
    requires none { (held draft.old).made ≡ 0 }
    requires may { MayOpen hall.now pass.old draft.old }
    ensures pass { IsPassOf hall.now pass.new }
    ensures draft { IsDraftOf (view pass.new) draft.new }
    ensures makes { (entries : List Entry) × HasMade (view pass.old) (view pass.new) entries × MakesAll (held draft.old) (held draft.new) entries (failed_in result) }
{
    'making: while draft.modules_left() > 0 {
        if let Err(key) = make_next(rt, hall, draft, pass) {
            return Err(key);
        }
    }
    Ok(())
}

fn start_all<R: Wait, M: ModuleSet, F: Fixtures>(
    rt: &R,
    hall: &Hall<M, F>,
    draft: &mut Draft<M>,
    pass: &mut Pass<Board<M, F>>,
) -> Result<(), Key>
    requires made { (held draft.old).made ≡ length (held draft.old).plan.modules }
    requires none { (held draft.old).started ≡ 0 }
    requires may { MayOpen hall.now pass.old draft.old }
    ensures pass { IsPassOf hall.now pass.new }
    ensures draft { IsDraftOf (view pass.new) draft.new }
    ensures starts { (entries : List Entry) × HasMade (view pass.old) (view pass.new) entries × StartsAll (held draft.old) (held draft.new) entries (failed_in result) }
{
    'starting: while draft.apps_left() > 0 {
        if let Err(key) = start_next(rt, hall, draft, pass) {
            return Err(key);
        }
    }
    Ok(())
}

// The key in `Err` is the one that could not be opened.
fn make_next<R: Wait, M: ModuleSet, F: Fixtures>(
    rt: &R,
    hall: &Hall<M, F>,
    draft: &mut Draft<M>,
    pass: &mut Pass<Board<M, F>>,
) -> Result<(), Key>
    requires more { (held draft.old).made < length (held draft.old).plan.modules }
    requires may { MayOpen hall.now pass.old draft.old }
    ensures pass { IsPassOf hall.now pass.new }
    ensures draft { IsDraftOf (view pass.new) draft.new }
    ensures made { HasMade (view pass.old) (view pass.new) (made_entry (held draft.old) (failed_in result) ∷ []) }
    ensures held { held draft.new ≡ one_made (held draft.old) (is_err result) }
{
    match hall.provision(rt, draft, pass) {
        Ok(_) => Ok(()),
        Err(KeyFailed { key }) => Err(key),
    }
}

fn start_next<R: Wait, M: ModuleSet, F: Fixtures>(
    rt: &R,
    hall: &Hall<M, F>,
    draft: &mut Draft<M>,
    pass: &mut Pass<Board<M, F>>,
) -> Result<(), Key>
    requires ready { (held draft.old).made ≡ length (held draft.old).plan.modules }
    requires more { (held draft.old).started < length (held draft.old).plan.apps }
    requires may { MayOpen hall.now pass.old draft.old }
    ensures pass { IsPassOf hall.now pass.new }
    ensures draft { IsDraftOf (view pass.new) draft.new }
    ensures started { HasMade (view pass.old) (view pass.new) (started_entry (held draft.old) (failed_in result) ∷ []) }
    ensures held { held draft.new ≡ one_started (held draft.old) (is_err result) }
{
    match hall.start(rt, draft, pass) {
        Ok(_) => Ok(()),
        Err(KeyFailed { key }) => Err(key),
    }
}
