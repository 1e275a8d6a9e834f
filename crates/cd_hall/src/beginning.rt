//! How a hall is made.
ghost use Rattle.std.specs.Prelude.{◌≡◌, ◌<◌, ◌≤◌, length, IfOk, IfErr};
ghost use Rattle.cd_legal.specs.declared.limits.TheConstants.{MAX_SEATS};
ghost use Rattle.cd_gate.specs.Ends.{IsRowOf, AreNew};
ghost use Rattle.cd_gate.specs.Passes.{opening_of};
ghost use Rattle.cd_hall.specs.Ends.{ArePassesOf};

use crate::hall::Hall;
use cd_gate::{Gate, NoGate, Pass};
use cd_life::{Board, NoBoard};
use cd_module_set::ModuleSet;
use cd_outside::Fixtures;
use std::alloc::Global;

// The board sees no requests, so it has a place for one caller alone.
const BOARD_CALLERS: u32 = 1;

/// Out of memory for a hall. It hands the fixtures back.
pub struct NoHall<F> {
    pub fixtures: F,
}

impl<M: ModuleSet, F: Fixtures> Hall<M, F> {
    /// A hall at whose board nothing has happened, and its passes. The pass at place i has the number i. Out of memory hands the
    /// fixtures back.
    pub fn new(
        alloc: Global,
        fixtures: F,
        seats: u32,
    ) -> Result<(Hall<M, F>, Vec<Pass<Board<M, F>>>), NoHall<F>>
        requires { (0 < seats) × (seats ≤ MAX_SEATS) }
        ensures fixtures { IfOk result (λ r. (opening_of r.0.gate).desk.fixtures ≡ fixtures) }
        ensures row { IfOk result (λ r. IsRowOf r.0.gate r.1.items × AreNew r.1.items × (length r.1.items ≡ seats)) }
        ensures passes { IfOk result (λ r. ArePassesOf r.0 r.1.items) }
        ensures err { IfErr result (λ none. none.fixtures ≡ fixtures) }
    {
        let board = match Board::new(alloc, fixtures, BOARD_CALLERS) {
            Ok(board) => board,
            Err(NoBoard { fixtures }) => return Err(NoHall { fixtures }),
        };
        match Gate::new(alloc, board, seats) {
            Ok((gate, passes)) => Ok((Hall { gate }, passes)),
            Err(NoGate { value }) => {
                let (fixtures, share) = value.end();
                drop(share);
                Err(NoHall { fixtures })
            }
        }
    }
}
