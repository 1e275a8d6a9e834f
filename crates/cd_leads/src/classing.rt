//! Classes of numbers that lead to one another (Tarjan, Depth-first search and linear graph algorithms, 1972). They save time
//! alone, so nothing is promised of them but that they are found: who uses them looks at each name once to see that they serve.
ghost use Rattle.std.specs.Prelude.{◌≡◌, ◌<◌, ◌++◌, ◌∷◌, [], length, IfOk};
ghost use Rattle.cd_leads.specs.Walking.{work};
ghost use Rattle.cd_leads.specs.Roaming.{Roams, Roamed};

use crate::counting::zeros;
use crate::sorting::new_marks;
use crate::walk::{Mark, Place, Walk, enter, looked_at, mark_of, pass, take_last};
use cd_text::{List, NoMemory};
use std::alloc::Global;

/// What is known of the numbers that were met.
#[derive(Debug, Drop)]
pub struct Numbers {
    /// When each was met, counted from 1.
    met_at: Vec<usize>,
    /// The least of these that it leads to, among the numbers without a class.
    lowest: Vec<usize>,
    /// Its class, counted from 1; 0 where it has none yet.
    class: Vec<usize>,
    /// The numbers that were met and have no class yet.
    open: Vec<usize>,
    met: usize,
    classes: usize,
}

fn get(values: &[usize], at: usize) -> usize {
    match values.get(at) {
        Some(value) => *value,
        None => 0,
    }
}

fn put(values: &mut [usize], at: usize, value: usize) {
    if at < values.len() {
        values[at] = value;
    }
}

impl Numbers {
    fn new(alloc: Global, count: usize) -> Result<Numbers, NoMemory> {
        Ok(Numbers {
            met_at: zeros(alloc, count)?,
            lowest: zeros(alloc, count)?,
            class: zeros(alloc, count)?,
            open: Vec::new(alloc),
            met: 0,
            classes: 0,
        })
    }

    fn meet(&mut self, n: usize) -> Result<(), NoMemory> {
        self.met = self.met.saturating_add(1);
        put(&mut self.met_at, n, self.met);
        put(&mut self.lowest, n, self.met);
        self.open.push(n)?;
        Ok(())
    }

    // A number leads to one that was met at that time.
    fn lower(&mut self, n: usize, met_at: usize) {
        if met_at < get(&self.lowest, n) {
            put(&mut self.lowest, n, met_at);
        }
    }

    // A number names one that was met before.
    fn sees(&mut self, n: usize, named: usize) {
        if get(&self.class, named) == 0 {
            let met_at = get(&self.met_at, named);
            self.lower(n, met_at);
        }
    }

    // All that a number names was looked at: it ends its class, or leads to what was met before.
    fn leave(&mut self, n: usize, before: Option<usize>) {
        let lowest = get(&self.lowest, n);
        if lowest == get(&self.met_at, n) {
            self.close(n);
        }
        if let Some(before) = before {
            if get(&self.class, n) == 0 {
                self.lower(before, lowest);
            }
        }
    }

    // The numbers that were met since this one are its class.
    fn close(&mut self, n: usize) {
        self.classes = self.classes.saturating_add(1);
        while let Some(last) = self.open.pop() {
            put(&mut self.class, last, self.classes);
            if last == n {
                return;
            }
        }
    }
}

fn before(walk: &Walk) -> Option<usize> {
    match walk.path.last() {
        Some(place) => Some(place.node),
        None => None,
    }
}

// Looks at the next number that the last of the path names.
#[tactic(auto, using(crate::proofs::Roams::roam_ends, crate::proofs::Roams::roam_passes, crate::proofs::Roams::roam_enters))]
fn roam(
    lists: &[List<usize>],
    walk: &mut Walk,
    numbers: &mut Numbers,
    top: Place,
) -> Result<(), NoMemory>
    requires { Roams lists.now walk.old.marks.items (walk.old.path.items ++ top ∷ []) }
    ensures { IfOk result (λ _. Roamed lists.now (work lists.now walk.old.marks.items (walk.old.path.items ++ top ∷ [])) walk.new.marks.items walk.new.path.items) }
{
    match looked_at(lists, top) {
        None => {
            numbers.leave(top.node, before(walk));
            Ok(())
        }
        Some(n) => match mark_of(walk, n) {
            Some(Mark::New) => {
                pass(walk, top)?;
                enter(walk, n)?;
                numbers.meet(n)
            }
            Some(Mark::Open) => {
                numbers.sees(top.node, n);
                pass(walk, top)
            }
            Some(Mark::Done) => pass(walk, top),
            None => pass(walk, top),
        },
    }
}

// Walks to all that a number leads to.
#[tactic(auto, using(crate::proofs::Roams::roam_begins))]
fn roam_from(
    lists: &[List<usize>],
    walk: &mut Walk,
    numbers: &mut Numbers,
    root: usize,
) -> Result<(), NoMemory>
    requires size { length walk.old.marks.items ≡ length lists.now }
    requires empty { walk.old.path.items ≡ [] }
    requires small { root < length lists.now }
    ensures { IfOk result (λ _. (length walk.new.marks.items ≡ length lists.now) × (walk.new.path.items ≡ [])) }
{
    enter(walk, root)?;
    numbers.meet(root)?;
    while let Some(top) = take_last(walk) {
        roam(lists, walk, numbers, top)?;
    }
    Ok(())
}

fn new_walk(alloc: Global, lists: &[List<usize>]) -> Result<Walk, NoMemory>
    ensures { IfOk result (λ walk. (length walk.marks.items ≡ length lists.now) × (walk.path.items ≡ [])) }
{
    let marks = new_marks(alloc, lists.len())?;
    Ok(Walk {
        marks,
        order: List::new(alloc),
        path: Vec::new(alloc),
    })
}

/// A class for each number: the same for those that lead to one another, and none that is higher for what a number names. It
/// takes as many steps as there are names.
pub fn classes(alloc: Global, lists: &[List<usize>]) -> Result<Vec<usize>, NoMemory> {
    let mut numbers = Numbers::new(alloc, lists.len())?;
    let mut walk = new_walk(alloc, lists)?;
    for root in 0..lists.len() {
        if get(&numbers.met_at, root) == 0 {
            roam_from(lists, &mut walk, &mut numbers, root)?;
        }
    }
    Ok(numbers.class)
}
