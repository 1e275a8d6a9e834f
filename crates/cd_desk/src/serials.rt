ghost use Rattle.std.specs.Prelude.{◌≡◌, List};
ghost use Rattle.cd_legal.specs.declared.entry.Signed.{Signed};
ghost use Rattle.cd_legal.specs.State.{has_number};
ghost use Rattle.cd_legal.specs.Legal.{state_at};
ghost use Rattle.cd_legal.specs.Serials.{has_serial};
ghost use Rattle.cd_desk.specs.declared.desk.Desk.{Desk};
ghost use Rattle.cd_desk.specs.Desks.{Holds};
ghost use Rattle.cd_desk.specs.Serials.{IsPlaceOf};

use crate::desk::Desk;
use crate::row::Row;
use cd_legal::Life;
use cd_outside::Fixtures;

// Whether it is that of a draft that was published with the serial.
pub(crate) fn has_serial(life: Life, serial: u32) -> bool
    ensures { result ≡ has_serial serial life }
{
    match life {
        Life::Live => false,
        Life::Published(published) => published == serial,
        Life::Abandoned => false,
    }
}

// The place of the draft that was published with the serial.
pub(crate) fn place_with(rows: &[Row], serial: u32) -> Option<usize>
    ensures { IsPlaceOf serial rows.now result }
{
    for (place, row) in rows.iter().enumerate() {
        if has_serial(row.life, serial) {
            return Some(place);
        }
    }
    None
}

impl<F: Fixtures> Desk<F> {
    /// Whether a serial is retired.
    pub fn retired(&self, serial: u32) -> bool
        ensures { (opening : Desk F) (log : List Signed) → Holds F.calls opening self.now log → result ≡ has_number serial (state_at log).retired }
    {
        if serial == 0 {
            return self.opening_retired;
        }
        if serial >= self.serial {
            return false;
        }
        match place_with(self.books.rows.as_slice(), serial) {
            Some(place) => self.books.rows[place].retired,
            None => true,
        }
    }
}
