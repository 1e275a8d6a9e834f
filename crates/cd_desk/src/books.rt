ghost use Rattle.std.specs.Prelude.{◌≡◌, ◌≤◌, ℕ, Bool, sum_by};
ghost use Rattle.cd_pool.specs.Pairs.{leases_of};
ghost use Rattle.cd_desk.specs.Rows.{Numbered, Numbered-prop, leases_at, place_in, row_waits, row_with};

use crate::row::Row;
use cd_pool::Pool;

/// Who holds which key, and what is opened and left of each draft. The row of a draft goes once it is closed.
pub struct Books {
    pub(crate) pool: Pool,
    // the number of the next draft
    pub(crate) next: u64,
    // by rising numbers of their drafts
    pub(crate) rows: Vec<Row>,
    // how many keys are still to be taken, in all rows
    pub(crate) waits: usize,
    ghost numbers: { Numbered 0 rows.items next } by { Numbered-prop 0 rows.items next },
    ghost leases: { (draft i : ℕ) (app : Bool) → leases_of (place_in draft app i) pool.held ≡ leases_at (row_with draft rows.items) app i },
    ghost sum: { waits ≡ sum_by row_waits rows.items },
    ghost room: { waits ≤ pool.spare },
}
