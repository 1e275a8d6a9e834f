//! The board: the one place where modules are made, ports opened and configurations published.
//!
//! Each call is one entry of the server's history (`cd_legal`), so nothing that it does can be forgotten: what stood for a history
//! stands afterwards for the same history with this entry, which is allowed there (`Adds` of specs/Standing.antt). One record says
//! which histories a board stands for (`Stood`): its desk stands for them (`cd_desk`), each tree in them has its plan and comes by
//! a change that was asked for (specs/Fits.antt), and of each configuration that is not retired its tree is kept.
//!
//! Files: beginning.rt makes a board and boarding.rt is the life of a draft up to its publishing; closing.rt stops and cleans what
//! was given up or superseded, retires serials, and halts; sharing.rt gives configurations out; kept.rt finds them, and takes
//! them out; removed.rt is what was taken out; origin.rt says where one comes from; readers.rt tells what stands, and progress.rt how far a draft has come; ending.rt ends
//! a board of which nothing is left, and over.rt says after which histories.
#![tactic(auto)]

mod beginning;
mod board;
mod boarding;
mod closing;
mod ending;
mod examples;
mod kept;
mod origin;
mod over;
mod progress;
mod readers;
mod removed;
mod share;
mod shares;
mod sharing;
mod stands;

pub use beginning::NoBoard;
pub use board::{Board, Draft};
pub use cd_desk::{Closing, DraftFault, Left, Step};
pub use examples::configurations_are_kept_until_they_are_retired;
pub use origin::Origin;
pub use over::what_is_over_has_ended;
pub use removed::{Abandoned, Removed};
pub use share::Nothing;
pub use shares::Share;
