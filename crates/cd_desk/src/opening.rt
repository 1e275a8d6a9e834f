ghost use Rattle.std.specs.Prelude.{◌≡◌, ◌<◌, ◌≤◌, ◌-◌, length, slice_get, IfErr, IfSome, []};
ghost use Rattle.cd_outside.specs.Counts.{Rose};
ghost use Rattle.cd_legal.specs.State.{part_of};
ghost use Rattle.cd_pool.specs.Pairs.{leases_of};
ghost use Rattle.cd_desk.specs.Waiting.{waits};
ghost use Rattle.cd_desk.specs.Lines.{OpensNext, EndsLast};

use crate::line::Line;
use cd_legal::Part;
use cd_outside::{Fixtures, Holder, Key};
use cd_pool::Pool;

// The one at this place of a draft, as it holds keys.
pub(crate) fn holder_of(part: Part, draft: u64, place: u32) -> Holder
    ensures { result ≡ part_of part draft place }
{
    let app = match part {
        Part::Instance => false,
        Part::App => true,
    };
    Holder { draft, app, place }
}

impl Line {
    // How many keys the next one is to take.
    pub(crate) fn next_waits(&self) -> usize
        requires { self.now.opened < length self.now.parts.items }
        ensures { IfSome (slice_get self.now.parts.items self.now.opened) (λ a. result ≡ waits a) }
    {
        self.parts[self.opened as usize].waiting.len()
    }

    // Opens the next one, for which the pool has room.
    pub(crate) fn open_next<F: Fixtures>(
        &mut self,
        pool: &mut Pool,
        fixtures: &mut F,
        draft: u64,
    ) -> Result<(), Key>
        requires left { self.old.opened < length self.old.parts.items }
        requires unended { self.old.ended ≡ 0 }
        requires room { IfSome (slice_get self.old.parts.items self.old.opened) (λ a. waits a ≤ pool.old.spare) }
        requires none { leases_of (part_of self.old.part draft self.old.opened) pool.old.held ≡ [] }
        ensures opens { OpensNext draft self.old self.new pool.old pool.new (F.calls fixtures.old) (F.calls fixtures.new) result }
        ensures later { F.faults fixtures.old ≤ F.faults fixtures.new }
        ensures cause { IfErr result (λ _. Rose (F.faults fixtures.old) (F.faults fixtures.new)) }
    {
        let place = self.opened;
        let holder = holder_of(self.part, draft, place);
        let taken = self.parts[place as usize].take_all(pool, fixtures, holder);
        self.opened += 1;
        taken
    }

    // Ends the last one that is opened and not ended.
    pub(crate) fn end_last<F: Fixtures>(&mut self, pool: &mut Pool, fixtures: &mut F, draft: u64)
        requires left { self.old.ended < self.old.opened }
        requires leases { IfSome (slice_get self.old.parts.items (self.old.opened - self.old.ended - 1)) (λ a. a.leases.items ≡ leases_of (part_of self.old.part draft (self.old.opened - self.old.ended - 1)) pool.old.held) }
        ensures ends { EndsLast draft self.old self.new pool.old pool.new (F.calls fixtures.old) (F.calls fixtures.new) }
        ensures faults { F.faults fixtures.new ≡ F.faults fixtures.old }
    {
        let place = self.opened - self.ended - 1;
        let holder = holder_of(self.part, draft, place);
        self.parts[place as usize].give_all(pool, fixtures, holder);
        self.ended += 1;
    }
}
