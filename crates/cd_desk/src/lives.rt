ghost use Rattle.std.specs.Prelude.{◌≡◌, ◌+◌, None};
ghost use Rattle.cd_legal.specs.declared.entry.Change.{Change};
ghost use Rattle.cd_legal.specs.declared.entry.Entry.TheVariants as entry;
ghost use Rattle.cd_desk.specs.Desks.{AddsTo};
ghost use Rattle.cd_tree.specs.declared.tree.Tree.{Tree};
ghost use Rattle.cd_desk.specs.Publishing.{CanPublish};
ghost use Rattle.cd_desk.specs.Lefts.{IsLeft};
ghost use Rattle.cd_desk.specs.Closings.{IsClosing, MayClean};
ghost use Rattle.cd_desk.specs.Rooms.{KeepsRoom};

use crate::closing::Closing;
use crate::desk::Desk;
use crate::left::Left;
use crate::rows::{place_of, set_life};
use cd_legal::Life;
use cd_outside::Fixtures;

impl<F: Fixtures> Desk<F> {
    /// A complete draft becomes the configuration with the next serial.
    pub fn publish(&mut self, draft: u64)
        requires can { CanPublish self.old draft }
        ensures entry { (change : Change) → AddsTo F.calls self.old self.new (entry.Publish draft (self.old.serial + 1) self.old.serial change) }
        ensures serial { self.new.serial ≡ self.old.serial + 1 }
        ensures halted { self.new.halted ≡ self.old.halted }
        ensures faults { F.faults self.new.fixtures ≡ F.faults self.old.fixtures }
        ensures room { KeepsRoom self.old self.new }
    {
        let place = place_of(&self.books, draft);
        self.serial += 1;
        self.begun = 0;
        set_life(&mut self.books, place, Life::Published(self.serial));
    }

    /// A draft is given up. What it has made and started is left to be ended.
    pub fn abandon(&mut self, left: Left) -> Closing
        requires { (t : Tree) × IsLeft self.old.books t left }
        ensures entry { AddsTo F.calls self.old self.new (entry.Abandon left.number) }
        ensures closing { result ≡ record { number = left.number; serial = None; apps = left.started; instances = left.made } }
        ensures at { IsClosing self.new result }
        ensures clean { MayClean self.new.books left.number }
        ensures faults { F.faults self.new.fixtures ≡ F.faults self.old.fixtures }
        ensures room { KeepsRoom self.old self.new }
    {
        let place = place_of(&self.books, left.number);
        set_life(&mut self.books, place, Life::Abandoned);
        Closing {
            number: left.number,
            serial: None,
            apps: left.started,
            instances: left.made,
        }
    }
}
