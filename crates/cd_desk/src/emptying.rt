ghost use Rattle.std.specs.Prelude.{◌≡◌, [], true};
ghost use Rattle.std.specs.List.{list_all};
ghost use Rattle.cd_desk.specs.Trimming.{is_closed_row};
ghost use Rattle.cd_desk.specs.Emptying.{HasEnded};

use crate::books::Books;
use crate::callers::Tickets;
use crate::desk::Desk;
use crate::row::Row;
use crate::trimming::end_row;
use cd_outside::Fixtures;

// Spends the rows of closed drafts.
fn end_rows(mut rows: Vec<Row>)
    requires { list_all is_closed_row rows.items ≡ true }
{
    while let Some(row) = rows.pop() {
        end_row(row);
    }
    rows.destroy_empty();
}

// Spends books of which nothing is left.
fn end_books(books: Books)
    requires held { books.pool.held ≡ [] }
    requires closed { list_all is_closed_row books.rows.items ≡ true }
{
    let Books {
        pool,
        next: _,
        rows,
        waits: _,
    } = books;
    pool.end();
    end_rows(rows);
}

impl<F: Fixtures> Desk<F> {
    /// Ends a desk of which nothing is left, and hands its fixtures back.
    pub fn end(self) -> F
        requires { HasEnded F.calls self }
        ensures { result ≡ self.fixtures }
    {
        let Desk {
            fixtures,
            books,
            serial: _,
            halted: _,
            begun: _,
            tickets,
            opening_retired: _,
        } = self;
        end_books(books);
        let Tickets { by_caller } = tickets;
        drop(by_caller);
        fixtures
    }
}
