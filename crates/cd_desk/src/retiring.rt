ghost use Rattle.std.specs.Prelude.{◌≡◌, ◌<◌, ◌+◌, ◌^◌, false, true, Some, List};
ghost use Rattle.cd_legal.specs.declared.entry.Entry.TheVariants as entry;
ghost use Rattle.cd_legal.specs.declared.entry.Signed.{Signed};
ghost use Rattle.cd_legal.specs.State.{has_number};
ghost use Rattle.cd_legal.specs.Legal.{state_at};
ghost use Rattle.cd_desk.specs.declared.desk.Desk.{Desk};
ghost use Rattle.cd_desk.specs.Desks.{AddsTo};
ghost use Rattle.cd_desk.specs.Serials.{row_of};
ghost use Rattle.cd_desk.specs.Closings.{CanRetire, is_stopped_row};
ghost use Rattle.cd_desk.specs.Rooms.{KeepsRoom};

use crate::desk::Desk;
use crate::row::Row;
use crate::rows::set_retired;
use crate::serials::{has_serial, place_with};
use crate::stopping::shut_where;
use cd_outside::Fixtures;

// Whether no app is left to be stopped of the draft that was published with the serial, if there is one.
fn are_stopped(rows: &[Row], serial: u32) -> bool
    ensures { result ≡ is_stopped_row (row_of serial rows.now) }
{
    for row in rows {
        if has_serial(row.life, serial) {
            return row.apps.ended == row.apps.opened;
        }
    }
    true
}

impl<F: Fixtures> Desk<F> {
    /// Retires a serial.
    pub fn retire(&mut self, serial: u32)
        requires { CanRetire self.old serial }
        ensures entry { AddsTo F.calls self.old self.new (entry.Retire serial) }
        ensures faults { F.faults self.new.fixtures ≡ F.faults self.old.fixtures }
        ensures room { KeepsRoom self.old self.new }
    {
        if serial == 0 {
            self.opening_retired = true;
            return;
        }
        let Some(place) = place_with(self.books.rows.as_slice(), serial) else {
            unreachable!()
        };
        set_retired(&mut self.books, place);
    }

    /// Halts: nothing runs under the next serial. Where no app of the last one is left to be stopped, the fixtures are shut.
    pub fn halt(&mut self)
        requires running { self.old.halted ≡ false }
        requires bound { self.old.serial + 1 < 2 ^ 32 }
        ensures entry { AddsTo F.calls self.old self.new (entry.Halt (self.old.serial + 1)) }
        ensures halted { self.new.halted ≡ true }
        ensures faults { F.faults self.new.fixtures ≡ F.faults self.old.fixtures }
        ensures room { KeepsRoom self.old self.new }
    {
        let last = are_stopped(self.books.rows.as_slice(), self.serial);
        self.serial += 1;
        self.halted = true;
        self.begun = 0;
        shut_where(&mut self.fixtures, last);
    }
}
