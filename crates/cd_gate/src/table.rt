// The table below a gate: its words, and its slot.
use crate::view::View;
use atomic_table::{Seat, Shared, Table, TableRule};
use cd_legal::Stands;
use std::alloc::Global;
use std::snapshot::Snapshot;

/// The word of the serial: the current serial times `SERIAL_STEP`, and how many requests began under it.
pub const SERIAL_WORD: usize = 0;

/// What one serial adds to its word: more requests than may begin under one.
pub const SERIAL_STEP: u64 = 1_099_511_627_776;

/// The word of the turn: 0 where it is free, else one more than the number of its holder.
pub const TURN_WORD: usize = 1;

/// The word that counts the entries of the history which are noted.
pub const HISTORY_WORD: usize = 2;

/// The first of the balances, that of the serial of the halt. Those of the other serials follow, each at its serial modulo
/// `MAX_UNRETIRED`.
pub const BALANCE_WORD: usize = 3;

/// The balance of a serial that is not settled, before any request under it has ended.
pub const FULL_BALANCE: u64 = 4_611_686_018_427_387_904;

/// How many words there are.
pub const WORD_COUNT: usize = 1_028;

/// The slot of the board.
pub const BOARD_SLOT: usize = 0;

/// How many slots there are.
pub const SLOT_COUNT: usize = 1;

pub struct Law;

impl<T: Stands> TableRule<Option<T>, View<T>, Snapshot<T>> for Law {
    ghost use Rattle.cd_gate.specs.Tables.{Holds};
    ghost use Rattle.cd_gate.specs.Steps.{first_view};

    ghost holds = { λ key s. Holds T.stands key.value s };

    ghost first = { λ key. first_view key.value };
}

pub type Board<T> = Table<Option<T>, View<T>, Snapshot<T>, Law, Global>;

pub type Top<T> = Shared<Option<T>, View<T>, Snapshot<T>, Law>;

pub type Place<T> = Seat<Option<T>, View<T>>;
