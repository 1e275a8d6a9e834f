ghost use Rattle.std.specs.Prelude.{◌≡◌, ◌<◌, ◌+◌, true, Some, List};
ghost use Rattle.cd_legal.specs.declared.entry.Signed.{Signed};
ghost use Rattle.cd_legal.specs.State.{has_number};
ghost use Rattle.cd_legal.specs.Legal.{state_at};
ghost use Rattle.cd_desk.specs.declared.desk.Desk.{Desk};
ghost use Rattle.cd_desk.specs.Desks.{Holds};
ghost use Rattle.cd_desk.specs.Closings.{IsClosing, MayClean, Leaves};

use crate::closing::Closing;
use crate::desk::Desk;
use crate::serials::place_with;
use cd_outside::Fixtures;

impl<F: Fixtures> Desk<F> {
    /// What is left of the draft that was published with a superseded serial; nothing where no draft was.
    pub fn superseded(&self, serial: u32) -> Closing
        requires { serial < self.now.serial }
        ensures at { IsClosing self.now result }
        ensures serial { result.serial ≡ Some serial }
        ensures left { (opening : Desk F) (log : List Signed) → Holds F.calls opening self.now log → Leaves (state_at log) serial result }
        ensures clean { (opening : Desk F) (log : List Signed) → Holds F.calls opening self.now log → has_number serial (state_at log).retired ≡ true → 0 < result.instances → MayClean self.now.books result.number }
    {
        match place_with(self.books.rows.as_slice(), serial) {
            Some(place) => {
                let row = &self.books.rows[place];
                Closing {
                    number: row.number,
                    serial: Some(serial),
                    apps: row.apps.opened - row.apps.ended,
                    instances: row.modules.opened - row.modules.ended,
                }
            }
            None => Closing {
                number: 0,
                serial: Some(serial),
                apps: 0,
                instances: 0,
            },
        }
    }
}
