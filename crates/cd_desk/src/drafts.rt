ghost use Rattle.std.specs.Prelude.{◌≡◌, ◌<◌, ◌≤◌, ◌+◌, ◌-◌, ◌^◌, ◌++◌, ◌∷◌, ◌↔◌, [], Err, All, length, IfOk, OnErr};
ghost use Rattle.std.specs.Vec.{vec_len, vec_capacity};
ghost use Rattle.cd_legal.specs.declared.entry.Entry.TheVariants as entry;
ghost use Rattle.cd_legal.specs.declared.part.Part.TheVariants as part;
ghost use Rattle.cd_legal.specs.State.{part_keys};
ghost use Rattle.cd_desk.specs.Rows.{row_waits};
ghost use Rattle.cd_desk.specs.Waiting.{IsEmpty, AllWait};
ghost use Rattle.cd_legal.specs.declared.limits.TheConstants.{MAX_DRAFTS, MAX_MODULES};
ghost use Rattle.cd_desk.specs.declared.drafts.DraftFault.TheVariants as fault;
ghost use Rattle.cd_desk.specs.Desks.{AddsTo, Keeps};
ghost use Rattle.cd_desk.specs.Lines.{IsWhole};
ghost use Rattle.cd_desk.specs.Drafting.{IsUnused, IsNew, HasNew, drafts_in};

use crate::books::Books;
use crate::desk::Desk;
use crate::drafting::{apps_for, end_all, make_room, modules_for};
use crate::instance::Instance;
use crate::line::Line;
use crate::row::Row;
use cd_legal::{Life, MAX_DRAFTS, Part, Plan};
use cd_outside::Fixtures;
use cd_tree::Tree;
use std::alloc::Global;
use std::snapshot::Snapshot;

/// Why no draft could be made.
#[derive(Clone, Copy, Debug, PartialEq, Eq)]
pub enum DraftFault {
    /// As many were made as a history may have.
    Spent,
    NoMemory,
}

// Of these instances none is opened.
fn new_line(part: Part, plan: &Plan, parts: Vec<Instance>) -> Line
    requires wait { AllWait parts.items (part_keys part plan.now) }
    requires bound { length parts.items ≤ MAX_MODULES + 1 }
    ensures { IsNew part plan.now parts.items result }
{
    let plan = Snapshot::of(plan);
    Line {
        part,
        plan,
        parts,
        opened: 0,
        ended: 0,
    }
}

// The row of a new draft.
fn new_row(number: u64, tree: &Tree, plan: &Plan, modules: Line, apps: Line) -> Row
    requires modules { (modules.part ≡ part.Instance) × (modules.plan.value ≡ plan.now) }
    requires apps { (apps.part ≡ part.App) × (apps.plan.value ≡ plan.now) }
    requires whole { IsWhole modules × IsWhole apps }
    ensures number { result.number ≡ number }
    ensures tree { result.tree.value ≡ tree.now }
    ensures plan { result.plan.value ≡ plan.now }
    ensures modules { result.modules ≡ modules }
    ensures apps { result.apps ≡ apps }
    ensures rest { IsUnused result }
{
    let tree = Snapshot::of(tree);
    let plan = Snapshot::of(plan);
    Row {
        number,
        tree,
        plan,
        modules,
        apps,
        failed: false,
        life: Life::Live,
        retired: false,
    }
}

// Adds the row of the next draft, which is to take so many keys, and for which there is room.
fn add_row(books: &mut Books, row: Row, waits: usize)
    requires place { vec_len books.old.rows < vec_capacity books.old.rows }
    requires number { row.number ≡ books.old.next }
    requires bound { books.old.next < 2 ^ 64 - 1 }
    requires modules { All IsEmpty row.modules.parts.items }
    requires apps { All IsEmpty row.apps.parts.items }
    requires waits { waits ≡ row_waits row }
    requires sum { books.old.waits + waits < 2 ^ 64 }
    requires room { books.old.waits + waits ≤ books.old.pool.spare }
    ensures next { books.new.next ≡ books.old.next + 1 }
    ensures rows { books.new.rows.items ≡ books.old.rows.items ++ row ∷ [] }
    ensures pool { books.new.pool ≡ books.old.pool }
{
    books.rows.push_reserved(row);
    books.next += 1;
    books.waits += waits;
}

impl<F: Fixtures> Desk<F> {
    /// Makes the next draft, with all memory that its later life needs, and answers its number.
    ///
    /// # Errors
    ///
    /// `Spent` where as many drafts were made as a history may have, and `NoMemory`. The history is as it was after both.
    pub fn draft(&mut self, alloc: Global, tree: &Tree, plan: &Plan) -> Result<u64, DraftFault>
        requires modules { length plan.now.modules ≤ MAX_MODULES }
        requires apps { length plan.now.apps ≤ MAX_MODULES + 1 }
        ensures entry { IfOk result (λ d. AddsTo F.calls self.old self.new (entry.Draft d tree.now plan.now)) }
        ensures row { IfOk result (λ d. HasNew self.new.books d tree.now plan.now) }
        ensures err { OnErr result (Keeps F.calls self.old self.new) }
        ensures spent { result ≡ Err fault.Spent ↔ drafts_in self.old.books ≡ MAX_DRAFTS }
        ensures unspent { IfOk result (λ _. drafts_in self.old.books < MAX_DRAFTS) }
        ensures faults { F.faults self.new.fixtures ≡ F.faults self.old.fixtures }
    {
        let number = self.books.next;
        if number == MAX_DRAFTS {
            return Err(DraftFault::Spent);
        }
        let Ok(modules) = modules_for(alloc, plan.modules.as_slice()) else {
            return Err(DraftFault::NoMemory);
        };
        let Ok(apps) = apps_for(alloc, plan.apps.as_slice()) else {
            end_all(modules);
            return Err(DraftFault::NoMemory);
        };
        let Some(waits) = make_room(&mut self.books, modules.as_slice(), apps.as_slice()) else {
            end_all(modules);
            end_all(apps);
            return Err(DraftFault::NoMemory);
        };
        let modules = new_line(Part::Instance, plan, modules);
        let apps = new_line(Part::App, plan, apps);
        let row = new_row(number, tree, plan, modules, apps);
        add_row(&mut self.books, row, waits);
        Ok(number)
    }
}
