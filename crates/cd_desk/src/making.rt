ghost use Rattle.std.specs.Prelude.{◌≡◌, ◌≤◌, IfErr};
ghost use Rattle.cd_outside.specs.Counts.{Rose};
ghost use Rattle.cd_legal.specs.declared.part.Part.TheVariants as part;
ghost use Rattle.cd_desk.specs.Opening.{CanOpenOf, OpensEntry};
ghost use Rattle.cd_desk.specs.Rooms.{KeepsRoom};

use crate::desk::Desk;
use crate::rows::{make_in, place_of, start_in};
use cd_outside::{Fixtures, Key};

impl<F: Fixtures> Desk<F> {
    // The next instance of a draft is made.
    pub(crate) fn make(&mut self, draft: u64) -> Result<(), Key>
        requires can { CanOpenOf part.Instance self.old.books draft }
        ensures entry { OpensEntry F.calls part.Instance self.old self.new draft result }
        ensures later { F.faults self.old.fixtures ≤ F.faults self.new.fixtures }
        ensures room { KeepsRoom self.old self.new }
        ensures cause { IfErr result (λ _. Rose (F.faults self.old.fixtures) (F.faults self.new.fixtures)) }
    {
        let place = place_of(&self.books, draft);
        make_in(&mut self.books, &mut self.fixtures, place)
    }

    // The next app of a draft is started.
    pub(crate) fn start(&mut self, draft: u64) -> Result<(), Key>
        requires can { CanOpenOf part.App self.old.books draft }
        ensures entry { OpensEntry F.calls part.App self.old self.new draft result }
        ensures later { F.faults self.old.fixtures ≤ F.faults self.new.fixtures }
        ensures room { KeepsRoom self.old self.new }
        ensures cause { IfErr result (λ _. Rose (F.faults self.old.fixtures) (F.faults self.new.fixtures)) }
    {
        let place = place_of(&self.books, draft);
        start_in(&mut self.books, &mut self.fixtures, place)
    }
}
