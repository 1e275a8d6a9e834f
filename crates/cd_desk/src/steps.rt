ghost use Rattle.std.specs.Prelude.{◌≡◌, ◌<◌, ◌≤◌, ℕ, IfOk, IfErr, is_err, false};
ghost use Rattle.cd_outside.specs.Counts.{Rose};
ghost use Rattle.cd_tree.specs.declared.tree.Tree.{Tree};
ghost use Rattle.cd_legal.specs.declared.entry.Entry.TheVariants as entry;
ghost use Rattle.cd_desk.specs.Instances.{failed_in};
ghost use Rattle.cd_desk.specs.Desks.{AddsTo};
ghost use Rattle.cd_desk.specs.Lefts.{IsLeft, one_made, one_started, step_at};
ghost use Rattle.cd_desk.specs.Rooms.{KeepsRoom};

use crate::desk::Desk;
use crate::left::{Left, Step};
use cd_outside::{Fixtures, Key};

// Whether as many are there as there are to be.
fn step(count: u32, all: u32) -> Step
    ensures { result ≡ step_at count all }
{
    if count == all { Step::Done } else { Step::More }
}

impl<F: Fixtures> Desk<F> {
    /// The next instance of a draft is made. It takes its keys in order, and opens each that nobody has.
    ///
    /// # Errors
    ///
    /// The key that could not be opened. Those before it are held until the draft is cleaned.
    pub fn make_next(&mut self, left: &mut Left) -> Result<Step, Key>
        requires at { (t : Tree) × IsLeft self.old.books t left.old }
        requires more { left.old.made < left.old.modules }
        requires unfailed { left.old.failed ≡ false }
        ensures entry { (taken : ℕ) × AddsTo F.calls self.old self.new (entry.Made left.old.number left.old.made taken (failed_in result)) }
        ensures left { left.new ≡ one_made left.old (is_err result) }
        ensures at { (t : Tree) → IsLeft self.old.books t left.old → IsLeft self.new.books t left.new }
        ensures step { IfOk result (λ step. step ≡ step_at left.new.made left.new.modules) }
        ensures later { F.faults self.old.fixtures ≤ F.faults self.new.fixtures }
        ensures room { KeepsRoom self.old self.new }
        ensures cause { IfErr result (λ _. Rose (F.faults self.old.fixtures) (F.faults self.new.fixtures)) }
    {
        let made = self.make(left.number);
        left.made += 1;
        left.failed = made.is_err();
        if let Err(key) = made {
            return Err(key);
        }
        Ok(step(left.made, left.modules))
    }

    /// The next app of a draft is started, in the same way.
    ///
    /// # Errors
    ///
    /// The key that could not be opened.
    pub fn start_next(&mut self, left: &mut Left) -> Result<Step, Key>
        requires at { (t : Tree) × IsLeft self.old.books t left.old }
        requires ready { left.old.made ≡ left.old.modules }
        requires more { left.old.started < left.old.apps }
        requires unfailed { left.old.failed ≡ false }
        ensures entry { (taken : ℕ) × AddsTo F.calls self.old self.new (entry.Started left.old.number left.old.started taken (failed_in result)) }
        ensures left { left.new ≡ one_started left.old (is_err result) }
        ensures at { (t : Tree) → IsLeft self.old.books t left.old → IsLeft self.new.books t left.new }
        ensures step { IfOk result (λ step. step ≡ step_at left.new.started left.new.apps) }
        ensures later { F.faults self.old.fixtures ≤ F.faults self.new.fixtures }
        ensures room { KeepsRoom self.old self.new }
        ensures cause { IfErr result (λ _. Rose (F.faults self.old.fixtures) (F.faults self.new.fixtures)) }
    {
        let started = self.start(left.number);
        left.started += 1;
        left.failed = started.is_err();
        if let Err(key) = started {
            return Err(key);
        }
        Ok(step(left.started, left.apps))
    }
}
