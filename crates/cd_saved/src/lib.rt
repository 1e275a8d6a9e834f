//! The program over a disk: each configuration that it acknowledges is saved first, and `run --resume` begins with the last one.
//!
//! `caddy_saved` (top.rt) is `caddy_main` of `cd_program` with a disk of `cd_autosave` beside its other parts. Words that ask for no
//! run that saves (saved_run.rt) go to `caddy_main`, and the disk stays as it is. A run opens the disk first (top.rt, declining.rt),
//! serves lanes that save what they keep (running.rt), and hands the disk back. Its contract is that of a run without a disk, where
//! the faults that the saves of a lane met count as that lane's own (specs/Shares.antt, specs/Top.antt).
//!
//! What a save does to the disk is the contract of `Saver::save`, and that a lane acknowledges nothing that it has not kept is one of
//! `cd_serve`. That the lane's `keep` makes the save is tested, since no contract says what a call did behind a lock.
#![tactic(auto)]

mod declining;
mod running;
mod saved_run;
mod top;

pub use saved_run::SavedRun;
pub use top::caddy_saved;
