//! Rows of cases: each line of a data file says what is called and what is wanted of it.
//!
//! A program of rows has kinds of its own (`Kinds`): a member of a row names its kind, and the kind calls what the row is about and
//! says what came of it (outcome.rt). `check_files` goes over the files that the program's words name, compares (wanted.rt), and
//! prints each difference with its file and line. Members, bytes and paths of a row are read in row.rt. An input that comes in pieces is
//! looked at in each way (pieces.rt), and handles of a runtime are what threads may share (handles.rt).
//!
//! Nothing here is part of the server. What is proved is safety: that a row agrees is said by the run.
#![tactic(auto)]

mod files;
mod handles;
mod outcome;
mod pieces;
mod row;
mod wanted;

pub use files::{Kinds, check_files};
pub use handles::Handles;
pub use outcome::{Outcome, gives, refuses, says};
pub use pieces::{InPieces, found, found_in_pieces};
pub use row::{
    RowFault, bytes_at, bytes_of, find, has, is_true, member, needed, number_of, only, path_at,
    text_of, tree_of,
};
