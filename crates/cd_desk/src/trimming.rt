ghost use Rattle.std.specs.Prelude.{◌≡◌, ◌<◌, ◌+◌, ◌^◌, ℕ, true, length, slice_get};
ghost use Rattle.std.specs.List.{remove};
ghost use Rattle.std.specs.Vec.{vec_capacity};
ghost use Rattle.cd_desk.specs.Rooms.{KeepsRoom};
ghost use Rattle.cd_legal.specs.State.{holds};
ghost use Rattle.cd_tree.specs.declared.tree.Tree.{Tree};
ghost use Rattle.cd_desk.specs.declared.closing.Closing.{Closing};
ghost use Rattle.cd_desk.specs.declared.left.Left.{Left};
ghost use Rattle.cd_desk.specs.Desks.{Keeps};
ghost use Rattle.cd_desk.specs.Drafting.{drafts_in};
ghost use Rattle.cd_desk.specs.Lefts.{IsLeft};
ghost use Rattle.cd_desk.specs.Rows.{row_waits};
ghost use Rattle.cd_desk.specs.Closings.{IsClosing, MayClean, CanRetire};
ghost use Rattle.cd_desk.specs.Trimming.{is_done, is_closed_row, Trims, IsClosedPlace, IsCleared, IsTrimmed};

use crate::books::Books;
use crate::closing::Closing;
use crate::desk::Desk;
use crate::drafting::{count_waiting, end_all};
use crate::line::Line;
use crate::row::Row;
use crate::rows::find;
use cd_legal::Life;
use cd_outside::Fixtures;

// Whether it is given up, or its serial is retired.
fn is_done(life: Life, retired: bool) -> bool
    ensures { result ≡ is_done life retired }
{
    match life {
        Life::Live => false,
        Life::Published(_) => retired,
        Life::Abandoned => true,
    }
}

// Whether the draft of the row is closed.
fn is_closed(row: &Row) -> bool
    ensures { result ≡ is_closed_row row.now }
{
    is_done(row.life, row.retired)
        && (row.apps.ended == row.apps.opened && row.modules.ended == row.modules.opened)
}

// Whether the draft of the row at a place, if there is one, is closed.
fn is_closed_at(rows: &[Row], place: usize) -> bool
    ensures { result ≡ holds is_closed_row (slice_get rows.now place) }
{
    let Some(row) = rows.get(place) else {
        return false;
    };
    is_closed(row)
}

// Spends a line of which each one that was opened is ended.
fn end_line(line: Line)
    requires { line.ended ≡ line.opened }
{
    let Line {
        part: _,
        plan: _,
        parts,
        opened: _,
        ended: _,
    } = line;
    end_all(parts);
}

// Spends the row of a closed draft.
pub(crate) fn end_row(row: Row)
    requires { is_closed_row row ≡ true }
{
    let Row {
        number: _,
        tree: _,
        plan: _,
        modules,
        apps,
        failed: _,
        life: _,
        retired: _,
    } = row;
    end_line(modules);
    end_line(apps);
}

// How many keys the instances and the apps of a row are to take, which are not too many to be counted.
fn row_waiting(row: &Row) -> usize
    requires { row_waits row.now < 2 ^ 64 }
    ensures { result ≡ row_waits row.now }
{
    count_waiting(row.modules.parts.as_slice()) + count_waiting(row.apps.parts.as_slice())
}

// The row at a place goes, which is that of a closed draft.
fn drop_at(books: &mut Books, place: usize)
    requires { holds is_closed_row (slice_get books.old.rows.items place) ≡ true }
    ensures trims { Trims books.old books.new }
    ensures rows { books.new.rows.items ≡ remove books.old.rows.items place }
    ensures one { length books.new.rows.items + 1 ≡ length books.old.rows.items }
    ensures capacity { vec_capacity books.new.rows ≡ vec_capacity books.old.rows }
{
    let waits = books.waits;
    let row = books.rows.remove(place);
    books.waits = waits - row_waiting(&row);
    end_row(row);
}

// The place of the row of a draft, where the draft is closed.
fn closed_place(books: &Books, draft: u64) -> Option<usize>
    ensures { IsClosedPlace books.now draft result }
{
    match find(books.rows.as_slice(), draft) {
        Some(place) => is_closed_at(books.rows.as_slice(), place).then_some(place),
        None => None,
    }
}

// The row of a draft goes, where the draft is closed.
fn clear(books: &mut Books, draft: u64)
    ensures trims { Trims books.old books.new }
    ensures cleared { IsCleared books.new draft }
    ensures capacity { vec_capacity books.new.rows ≡ vec_capacity books.old.rows }
{
    let Some(place) = closed_place(books, draft) else {
        return;
    };
    drop_at(books, place);
}

// The rows of closed drafts go, up to the first of a draft that is not closed.
fn trim(books: &mut Books)
    ensures trims { Trims books.old books.new }
    ensures trimmed { IsTrimmed books.new }
    ensures capacity { vec_capacity books.new.rows ≡ vec_capacity books.old.rows }
{
    while is_closed_at(books.rows.as_slice(), 0) {
        drop_at(books, 0);
    }
}

impl<F: Fixtures> Desk<F> {
    /// Spends a closing of which nothing is left. The row of its draft goes where the draft is closed, and so do those of other
    /// closed drafts, up to the first draft that is not closed. It takes no memory.
    pub fn closed(&mut self, closing: Closing)
        requires apps { closing.apps ≡ 0 }
        requires instances { closing.instances ≡ 0 }
        ensures keeps { Keeps F.calls self.old self.new }
        ensures same { self.new ≡ record self.old { books = self.new.books } }
        ensures drafts { drafts_in self.new.books ≡ drafts_in self.old.books }
        ensures lefts { (t : Tree) (left : Left) → IsLeft self.old.books t left → IsLeft self.new.books t left }
        ensures closings { (other : Closing) → IsClosing self.old other → IsClosing self.new other }
        ensures clean { (draft : ℕ) → MayClean self.old.books draft → MayClean self.new.books draft }
        ensures retire { (serial : ℕ) → CanRetire self.old serial → CanRetire self.new serial }
        ensures trimmed { IsTrimmed self.new.books }
        ensures cleared { IsCleared self.new.books closing.number }
        ensures room { KeepsRoom self.old self.new }
    {
        let number = closing.number;
        closing.end();
        clear(&mut self.books, number);
        trim(&mut self.books);
    }
}
