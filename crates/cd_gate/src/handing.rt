//! Passes are handed out and taken in, and tell one another what they have seen.
ghost use Rattle.std.specs.Prelude.{◌≡◌, ◌<◌, []};
ghost use mathlib.Core.List.{IsPrefix};
ghost use Rattle.cd_legal.specs.declared.limits.TheConstants.{MAX_PASSES};
ghost use Rattle.cd_legal.specs.Owing.{owes_nothing};
ghost use Rattle.cd_gate.specs.Words.{owed};
ghost use Rattle.cd_gate.specs.Steps.{longer, splitting, split_off, joining};
ghost use Rattle.cd_gate.specs.Passes.{view, IsIdleOf};

use crate::gate::Gate;
use crate::pass::Pass;
use crate::plays::{Compare, Copy, HandOut, HandOver, TakeIn};
use crate::table::SERIAL_WORD;
use cd_legal::Stands;

impl<T> Pass<T> {
    /// Its number: it signs the entries that the pass makes.
    pub fn number(&self) -> u32
        ensures { result ≡ self.now.number }
    {
        self.number
    }
}

impl<T: Stands> Gate<T> {
    // One pass more, of the number that the pass of number 0 makes next.
    pub(crate) fn hand_out(&self, first: &mut Pass<T>, number: u32) -> Pass<T>
        requires pass { IsIdleOf self.now first.old × ((view first.old).number ≡ 0) }
        requires number { (number ≡ (view first.old).made) × (number < MAX_PASSES) }
        ensures first { IsIdleOf self.now first.new × (view first.new ≡ splitting (view first.old)) }
        ensures other { IsIdleOf self.now result × (view result ≡ split_off (view first.old)) }
    {
        let seat = self.table.shared.split_seat::<HandOut>(&mut first.seat);
        Pass { number, seat }
    }

    // The pass of number 0 keeps what the other knew.
    pub(crate) fn take_in(&self, first: &mut Pass<T>, other: Pass<T>)
        requires pass { IsIdleOf self.now first.old × ((view first.old).number ≡ 0) }
        requires other { IsIdleOf self.now other }
        requires free { (owed (view other) ≡ owes_nothing) × ((view other).duties ≡ []) }
        ensures first { IsIdleOf self.now first.new × (view first.new ≡ joining (view first.old) (view other)) }
    {
        let Pass { number: _, seat } = other;
        self.table.shared.join_seat::<TakeIn>(&mut first.seat, seat);
    }

    /// Afterwards `to` has seen all that `from` had seen.
    pub fn tell(&self, from: &mut Pass<T>, to: &mut Pass<T>)
        requires from { from.old.seat.table_id ≡ self.now.table.shared.table_id }
        requires to { IsIdleOf self.now to.old }
        ensures from { from.new ≡ from.old }
        ensures to { IsIdleOf self.now to.new × (view to.new ≡ record (view to.old) { seen = longer (view to.old).seen (view from.old).seen }) }
        ensures seen { IsPrefix (view to.old).seen (view to.new).seen × IsPrefix (view from.old).seen (view to.new).seen }
    {
        let top = &self.table.shared;
        let messenger = top.split_seat::<Copy>(&mut from.seat);
        top.join_seat::<HandOver>(&mut to.seat, messenger);
        top.load::<Compare>(&mut to.seat, SERIAL_WORD);
    }
}
