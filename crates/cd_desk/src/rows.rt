ghost use Rattle.std.specs.Prelude.{◌≡◌, ◌≢◌, ◌<◌, ◌≤◌, ◌==◌, IfErr, length};
ghost use Rattle.std.specs.Vec.{vec_capacity};
ghost use Rattle.cd_outside.specs.Counts.{Rose};
ghost use Rattle.cd_legal.specs.declared.part.Part.TheVariants as part;
ghost use Rattle.cd_legal.specs.declared.state.Life.TheVariants.{Live};
ghost use Rattle.cd_desk.specs.declared.row.Row.{Row};
ghost use Rattle.cd_desk.specs.Books.{HasRow, HasRowAt, IsRowPlace, CanOpen, CanEnd, Opens, Ends, Lives, Retires};

use crate::books::Books;
use crate::row::Row;
use cd_legal::{Life, Part};
use cd_outside::{Fixtures, Key};

// Whether it is the row of the draft.
fn has_number(row: &Row, draft: u64) -> bool
    ensures { result ≡ (draft == row.now.number) }
{
    row.number == draft
}

// The place of the row of a draft, if it has one.
pub(crate) fn find(rows: &[Row], draft: u64) -> Option<usize>
    ensures { IsRowPlace draft rows.now result }
{
    for (place, row) in rows.iter().enumerate() {
        if has_number(row, draft) {
            return Some(place);
        }
    }
    None
}

// The place of a draft that has a row.
pub(crate) fn place_of(books: &Books, draft: u64) -> usize
    requires there { HasRow books.now draft }
    ensures at { HasRowAt books.now draft result }
    ensures within { result < length books.now.rows.items }
{
    let Some(place) = find(books.rows.as_slice(), draft) else {
        unreachable!()
    };
    place
}

// The next instance of the draft at this place is made.
pub(crate) fn make_in<F: Fixtures>(
    books: &mut Books,
    fixtures: &mut F,
    place: usize,
) -> Result<(), Key>
    requires can { CanOpen part.Instance books.old place }
    ensures opens { Opens part.Instance place books.old books.new (F.calls fixtures.old) (F.calls fixtures.new) result }
    ensures capacity { vec_capacity books.new.rows ≡ vec_capacity books.old.rows }
    ensures later { F.faults fixtures.old ≤ F.faults fixtures.new }
    ensures cause { IfErr result (λ _. Rose (F.faults fixtures.old) (F.faults fixtures.new)) }
{
    let row = &mut books.rows[place];
    let draft = row.number;
    let taken = row.modules.next_waits();
    let opened = row.modules.open_next(&mut books.pool, fixtures, draft);
    row.failed = opened.is_err();
    books.waits -= taken;
    opened
}

// The next app of the draft at this place is started.
pub(crate) fn start_in<F: Fixtures>(
    books: &mut Books,
    fixtures: &mut F,
    place: usize,
) -> Result<(), Key>
    requires can { CanOpen part.App books.old place }
    ensures opens { Opens part.App place books.old books.new (F.calls fixtures.old) (F.calls fixtures.new) result }
    ensures capacity { vec_capacity books.new.rows ≡ vec_capacity books.old.rows }
    ensures later { F.faults fixtures.old ≤ F.faults fixtures.new }
    ensures cause { IfErr result (λ _. Rose (F.faults fixtures.old) (F.faults fixtures.new)) }
{
    let row = &mut books.rows[place];
    let draft = row.number;
    let taken = row.apps.next_waits();
    let opened = row.apps.open_next(&mut books.pool, fixtures, draft);
    row.failed = opened.is_err();
    books.waits -= taken;
    opened
}

// The draft at this place gets another life.
pub(crate) fn set_life(books: &mut Books, place: usize, life: Life)
    requires there { place < length books.old.rows.items }
    requires over { life ≢ Live }
    ensures lives { Lives life place books.old books.new }
    ensures capacity { vec_capacity books.new.rows ≡ vec_capacity books.old.rows }
{
    books.rows[place].life = life;
}

// The last app that is started and not stopped is stopped, of the draft at this place.
pub(crate) fn stop_in<F: Fixtures>(books: &mut Books, fixtures: &mut F, place: usize)
    requires can { CanEnd part.App books.old place }
    ensures ends { Ends part.App place books.old books.new (F.calls fixtures.old) (F.calls fixtures.new) }
    ensures faults { F.faults fixtures.new ≡ F.faults fixtures.old }
    ensures capacity { vec_capacity books.new.rows ≡ vec_capacity books.old.rows }
{
    let row = &mut books.rows[place];
    let draft = row.number;
    row.apps.end_last(&mut books.pool, fixtures, draft);
}

// The last instance that is made and not cleaned is cleaned, of the draft at this place.
pub(crate) fn clean_in<F: Fixtures>(books: &mut Books, fixtures: &mut F, place: usize)
    requires can { CanEnd part.Instance books.old place }
    ensures ends { Ends part.Instance place books.old books.new (F.calls fixtures.old) (F.calls fixtures.new) }
    ensures faults { F.faults fixtures.new ≡ F.faults fixtures.old }
    ensures capacity { vec_capacity books.new.rows ≡ vec_capacity books.old.rows }
{
    let row = &mut books.rows[place];
    let draft = row.number;
    row.modules.end_last(&mut books.pool, fixtures, draft);
}

// The serial of the draft at this place is retired.
pub(crate) fn set_retired(books: &mut Books, place: usize)
    requires there { place < length books.old.rows.items }
    ensures retires { Retires place books.old books.new }
    ensures capacity { vec_capacity books.new.rows ≡ vec_capacity books.old.rows }
{
    books.rows[place].retired = true;
}
